//! What the bytes of an image and of a trace open.

use crate::debugger::Debugger;
use ir_fit::Verdict;
use ir_image::ImageErr;
use ir_trace::TraceErr;

/// What an image and a trace open.
#[derive(Drop)]
pub enum Opened {
    /// Nothing: these bytes are no image.
    ImageRefused(ImageErr),
    /// Nothing: these bytes are no trace.
    TraceRefused(TraceErr),
    /// Nothing: no run of the guest has the trace.
    Unfit(Verdict),
    /// A debugger at the start of the guest's run with the trace.
    Ready(Debugger),
}
