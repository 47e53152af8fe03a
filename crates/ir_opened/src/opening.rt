//! Bytes that are opened as a guest and a trace of one of its runs, and the text that says why they aren't.

ghost use Rattle.std.specs.Prelude.{◌≡◌, ℕ, List, Ok, IfOk, OnOk, IfErr, false};
ghost use Rattle.std.specs.Io.KnownBytes.{Appends};
ghost use Rattle.ir_stream.specs.Writing.{WritesText};
ghost use Rattle.ir_image.specs.Guest.{guest_at};
ghost use Rattle.ir_trace.specs.Recorded.{recorded_at};
ghost use Rattle.ir_files.specs.Writers.{writer_of};
ghost use Rattle.ir_past.specs.Answers.{Stops};
ghost use Rattle.ir_opened.specs.Opened.{IsFitOpened, unfit_text, unfit_status};

use crate::opened::{Opened, Refusal};
use ir_files::ExitStatus;
use ir_fit::{FitErr, fit};
use ir_image::{Image, read_image};
use ir_object::OpenGate;
use ir_past::PastErr;
use ir_stream::{DeviceErr, Sink, write_all};
use ir_text::{refusal_line, write_verdict};
use ir_trace::{Trace, read_trace};
use std::alloc::{AllocError, Global};

// What a guest and a trace are.
fn open_both(alloc: Global, image: Image, trace: Trace) -> Result<Opened, AllocError>
    ensures { IfOk result (λ o. (i t : List ℕ) → guest_at i ≡ Ok image → recorded_at t ≡ Ok trace → IsFitOpened i t o) }
{
    match fit(alloc, image, trace, &OpenGate) {
        Ok(fitted) => {
            fitted.known();
            Ok(Opened::Fits(fitted))
        }
        Err(FitErr::Refused(verdict)) => Ok(Opened::Refused(Refusal::NoRun(verdict))),
        Err(FitErr::NoMem) => Err(AllocError),
    }
}

// What a guest and the bytes of a trace are.
fn open_with(alloc: Global, image: Image, trace: &[u8]) -> Result<Opened, AllocError>
    ensures { IfOk result (λ o. (i : List ℕ) → guest_at i ≡ Ok image → IsFitOpened i trace.now o) }
{
    match read_trace(alloc, trace) {
        Ok(trace) => open_both(alloc, image, trace),
        Err(error) => match error.number() {
            None => Err(AllocError),
            Some(fault) => Ok(Opened::Refused(Refusal::NoTrace(fault))),
        },
    }
}

/// What the bytes of an image and of a trace are: a guest and a trace that one of its runs has, or why not. The image is judged first, then
/// the trace. It takes memory for both, and for the positions of the run's entries and leaves.
///
/// # Errors
/// Out of memory.
pub fn open_fit(alloc: Global, image: &[u8], trace: &[u8]) -> Result<Opened, AllocError>
    ensures { IfOk result (IsFitOpened image.now trace.now) }
{
    match read_image(alloc, image) {
        Ok(image) => open_with(alloc, image, trace),
        Err(error) => match error.number() {
            None => Err(AllocError),
            Some(fault) => Ok(Opened::Refused(Refusal::NoImage(fault))),
        },
    }
}

// Writes the text that says why bytes don't fit.
fn write_refusal<O: Sink>(why: &Refusal, out: &mut O) -> Result<(), DeviceErr>
    ensures { WritesText O.written O.broken out.old out.new (unfit_text why.now) result }
{
    match why {
        Refusal::NoImage(fault) => write_all(
            out,
            refusal_line(b"image refused ", Some(*fault)).as_slice(),
        ),
        Refusal::NoTrace(fault) => write_all(
            out,
            refusal_line(b"trace refused ", Some(*fault)).as_slice(),
        ),
        Refusal::NoRun(verdict) => write_verdict(verdict, out),
    }
}

/// Writes the text that says why bytes don't fit; the exit status.
///
/// # Errors
/// The writer failed; then a prefix of the text was written.
pub fn refuse<O: Sink>(why: &Refusal, out: &mut O) -> Result<ExitStatus, PastErr>
    requires { O.broken out.old ≡ false }
    ensures status { IfOk result (λ status. status ≡ unfit_status why.now) }
    ensures ok { OnOk result (Appends (O.written out.old) (O.written out.new) (unfit_text why.now)) }
    ensures works { OnOk result (O.broken out.new ≡ false) }
    ensures fails { IfErr result (λ e. Stops e (writer_of (O.written out.old) (O.written out.new) (O.broken out.new)) (unfit_text why.now)) }
{
    write_refusal(why, out)?;
    match why {
        Refusal::NoImage(_) => Ok(ExitStatus::Refused),
        Refusal::NoTrace(_) => Ok(ExitStatus::Refused),
        Refusal::NoRun(_) => Ok(ExitStatus::NotFit),
    }
}
