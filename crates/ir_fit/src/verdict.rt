//! What is said of a trace that is no run's.

use crate::header_cause::HeaderCause;
use ir_coherence::Cause;
use ir_runs::ThreadVerdict;

/// Why no run of a guest has a trace.
#[derive(Debug, Drop)]
pub enum Verdict {
    /// The trace is of another number of threads or objects.
    Header(HeaderCause),
    /// An event can't occur with the others of the trace, whatever the guest: the first such by thread and event.
    Incoherent {
        thread: u8,
        /// The event's place in its thread's log, from 0.
        event: u32,
        cause: Cause,
    },
    /// What is said of each thread, by their numbers; not all are the same.
    Threads(Vec<ThreadVerdict>),
}
