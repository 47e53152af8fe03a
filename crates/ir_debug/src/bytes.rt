//! What the bytes of an image and of a trace open.

ghost use Rattle.std.specs.Prelude.{◌≡◌, IfOk, Ok};
ghost use Rattle.ir_trace.specs.Recorded.{recorded_at};
ghost use Rattle.ir_debug.specs.Machine.{Opens, OpensImage, OpensTrace, OpensFit};
ghost use Rattle.ir_debug.specs.Openings.{opening_of};

use crate::debugger::Debugger;
use crate::opening::Opened;
use ir_fit::{FitErr, fit_passing};
use ir_image::{Image, ImageErr, read_image};
use ir_object::Hands;
use ir_trace::{Trace, TraceErr, read_trace};
use std::alloc::AllocError;

fn open_fitted<H: Hands>(hands: &H, image: Image, trace: Trace) -> Result<Opened, AllocError>
    ensures { IfOk result (λ opened. OpensFit image trace (opening_of opened)) }
{
    let alloc = hands.alloc();
    match fit_passing(alloc, image, trace, hands) {
        Ok((fitted, passed)) => Ok(Opened::Ready(Debugger::open_passed(alloc, fitted, passed)?)),
        Err(FitErr::Refused(verdict)) => Ok(Opened::Unfit(verdict)),
        Err(FitErr::NoMem) => Err(AllocError),
    }
}

fn open_trace<H: Hands>(hands: &H, image: Image, trace: &[u8]) -> Result<Opened, AllocError>
    ensures { IfOk result (λ opened. OpensTrace image (recorded_at trace.now) (opening_of opened)) }
{
    match read_trace(hands.alloc(), trace) {
        Ok(trace) => open_fitted(hands, image, trace),
        Err(TraceErr::NoMem) => Err(AllocError),
        Err(error) => Ok(Opened::TraceRefused(error)),
    }
}

/// What the bytes of an image and of a trace open: the image is judged first, then the trace, then the fit. The gate is told of the steps
/// of the fit.
///
/// # Errors
/// Out of memory.
#[tactic(auto, unfolding(crate::specs::Machine::Opens))]
pub fn open<H: Hands>(hands: &H, image: &[u8], trace: &[u8]) -> Result<Opened, AllocError>
    ensures { IfOk result (λ opened. Opens image.now trace.now (opening_of opened)) }
{
    match read_image(hands.alloc(), image) {
        Ok(image) => open_trace(hands, image, trace),
        Err(ImageErr::NoMem) => Err(AllocError),
        Err(error) => Ok(Opened::ImageRefused(error)),
    }
}
