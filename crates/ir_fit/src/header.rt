//! Whether a trace's header is the guest's.

ghost use Rattle.std.specs.Prelude.{◌≡◌, ◌≢◌, length, OnOk, IfErr};
ghost use Rattle.ir_fit.specs.Fit.{HasHeader, IsOther};

use crate::header_cause::HeaderCause;
use ir_image::Image;
use ir_trace::Trace;

/// Whether the trace is of as many threads and objects as the guest has.
///
/// # Errors
/// What it has another number of: first the threads are compared.
pub fn same_header(image: &Image, trace: &Trace) -> Result<(), HeaderCause>
    ensures same { OnOk result (HasHeader image.now trace.now) }
    ensures other { IfErr result (IsOther image.now trace.now) }
{
    if trace.threads().len() != image.entries().len() {
        return Err(HeaderCause::Threads);
    }
    if trace.objects() as usize != image.object_count() {
        return Err(HeaderCause::Objects);
    }
    Ok(())
}
