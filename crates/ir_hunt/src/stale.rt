//! Whether a stale write of a run rests on what was read.

ghost use Rattle.std.specs.Prelude.{◌≡◌, List, IfOk};
ghost use Rattle.ir_fit.specs.Fit.{IsRunOf};
ghost use Rattle.ir_hunt.specs.Rests.{RestsInTrace};
ghost use Rattle.ir_hunt.specs.Stale.{HasStaleBy, IsTraceBy, IsWanted};
ghost use Rattle.ir_record.specs.Recording.{order_of_turns};
ghost use Rattle.ir_runs.specs.Run.{Step};
ghost use Rattle.ir_thread.specs.State.{IsAllowed};

use crate::worlds::counted_worlds;
use ir_fit::{FitErr, fit};
use ir_image::{Code, Image};
use ir_object::OpenGate;
use ir_record::{Turns, record_in_turns};
use ir_record_command::RecordPlan;
use ir_stale_run::has_rests;
use ir_trace::Trace;
use std::alloc::{AllocError, Global};
use std::time::Clock;

// A copy of a guest.
fn copy_of(alloc: Global, image: &Image) -> Result<Image, AllocError>
    ensures { IfOk result (λ copy. copy ≡ image.now) }
{
    let entries = Vec::from_slice(alloc, image.entries())?;
    let code = Code::new(alloc, Vec::from_slice(alloc, image.code().words())?)?;
    let bytes = Vec::from_slice(alloc, image.bytes())?;
    let words = Vec::from_slice(alloc, image.words())?;
    Ok(Image::new(image.form(), entries, code, bytes, words))
}

/// Whether a stale write of a run rests on what was read, by its trace.
///
/// # Errors
/// Out of memory.
pub fn rests_in_trace(alloc: Global, image: &Image, trace: Trace) -> Result<bool, AllocError>
    requires { (run : List Step) × IsRunOf image.now trace run }
    ensures { IfOk result (RestsInTrace image.now trace) }
{
    match fit(alloc, copy_of(alloc, image)?, trace, &OpenGate) {
        Ok(fitted) => has_rests(alloc, &fitted),
        Err(FitErr::NoMem) => Err(AllocError),
        // It is the trace of a run.
        Err(FitErr::Refused(_)) => unreachable!(),
    }
}

// The trace of the run by these turns, of a guest that is recorded so but for its order.
fn trace_of<C: Clock>(
    alloc: Global,
    clock: &C,
    image: &Image,
    plan: &RecordPlan<'_>,
    turns: &[Turns],
) -> Result<Trace, AllocError>
    requires { IsAllowed plan.now.profile image.now }
    ensures by { IfOk result (IsTraceBy image.now plan.now (order_of_turns turns.now)) }
    ensures run { IfOk result (λ trace. (run : List Step) × IsRunOf image.now trace run) }
{
    let worlds = counted_worlds(alloc, clock, image, plan)?;
    match record_in_turns(alloc, image, turns, worlds, plan.budget, plan.profile) {
        Ok((trace, _)) => Ok(trace),
        // A world that counts its time fails only where it has no room for more answers.
        Err(_) => Err(AllocError),
    }
}

// Whether a stale write of the run by these turns rests on what was read.
fn has_stale<C: Clock>(
    alloc: Global,
    clock: &C,
    image: &Image,
    plan: &RecordPlan<'_>,
    turns: &[Turns],
) -> Result<bool, AllocError>
    requires { IsAllowed plan.now.profile image.now }
    ensures { IfOk result (HasStaleBy image.now plan.now (order_of_turns turns.now)) }
{
    let trace = trace_of(alloc, clock, image, plan, turns)?;
    rests_in_trace(alloc, image, trace)
}

/// Whether the run by these turns has what is wanted of its stale writes that rest on what was read, if anything is: one, or none.
///
/// # Errors
/// Out of memory.
pub fn is_wanted<C: Clock>(
    alloc: Global,
    clock: &C,
    image: &Image,
    plan: &RecordPlan<'_>,
    turns: &[Turns],
    wanted: Option<bool>,
) -> Result<bool, AllocError>
    requires { IsAllowed plan.now.profile image.now }
    ensures { IfOk result (IsWanted image.now plan.now (order_of_turns turns.now) wanted) }
{
    match wanted {
        None => Ok(true),
        Some(true) => has_stale(alloc, clock, image, plan, turns),
        Some(false) => Ok(!has_stale(alloc, clock, image, plan, turns)?),
    }
}
