//! What the bytes of an image and of a trace are.

use ir_fit::{Fitted, Verdict};

/// Why the bytes of an image and of a trace don't fit.
#[derive(Drop)]
pub enum Refusal {
    /// The first bytes are no image, for their first fault of this number.
    NoImage(u8),
    /// The second bytes are no trace, for their first fault of this number.
    NoTrace(u8),
    /// No run of the guest has the trace.
    NoRun(Verdict),
}

/// What the bytes of an image and of a trace are.
#[derive(Drop)]
pub enum Opened {
    /// A guest, and a trace that one of its runs has.
    Fits(Fitted),
    /// Something else, for this reason.
    Refused(Refusal),
}
