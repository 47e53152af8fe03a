//! What bytes are, where a trace is asked about.

use ir_coherence::Incoherence;
use ir_trace::Trace;

/// Why bytes are no coherent trace.
#[derive(Clone, Copy, Debug, PartialEq, Eq)]
pub enum Refusal {
    /// They are no trace, for their first fault of this number.
    NoTrace(u8),
    /// This is the trace's first event that breaks coherence.
    Incoherent(Incoherence),
}

/// What bytes are.
#[derive(Drop)]
pub enum Opened {
    /// A coherent trace.
    Coherent(Trace),
    /// Something else, for this reason.
    Refused(Refusal),
}
