//! Whether a trace is a run's.

ghost use Rattle.std.specs.Prelude.{◌≡◌, ◌≢◌, ◌<◌, ℕ, length, slice_get, Some, true, false, IfOk, OnOk, IfErr};
ghost use Rattle.ir_fit.specs.Ahead.{IsStoppedAhead};
ghost use Rattle.ir_fit.specs.Fit.{HasRun, IsRefused};
ghost use Rattle.ir_fit.specs.Follower.{IsFollower, IsSized, AreStanding};
ghost use Rattle.ir_fit.specs.Passed.{ArePassed};
ghost use Rattle.ir_runs.specs.declared.thread_verdict.ThreadVerdict.{ThreadVerdict};
ghost use Rattle.ir_runs.specs.declared.thread_verdict.ThreadVerdict.TheVariants.{Same};

use crate::coherence::coherent;
use crate::fit_err::FitErr;
use crate::fitted::Fitted;
use crate::follower::Follower;
use crate::follower::ending::followed;
use crate::follower::growing::{GrowingPlaces, all_grown};
use crate::follower::passing::Passing;
use crate::header::same_header;
use crate::passed_state::PassedState;
use crate::stretch::Stretch;
use crate::verdict::Verdict;
use ir_image::Image;
use ir_object::Gate;
use ir_runs::ThreadVerdict;
use ir_trace::Trace;
use std::alloc::{AllocError, Global};

impl Follower<'_> {
    // What is said of each thread, by their numbers.
    fn verdicts(&self, alloc: Global) -> Result<Vec<ThreadVerdict>, AllocError>
        requires sized { IsSized self.now }
        requires stopped { (t : ℕ) → t < length self.now.flat.threads → IsStoppedAhead self.now.trace self.now.flat t }
        ensures each { IfOk result (λ vs. length vs.items ≡ length self.now.flat.threads) }
        ensures stand { IfOk result (λ vs. AreStanding self.now.trace self.now.flat self.now.places.items vs.items) }
    {
        let count = self.flat.threads().len();
        let mut verdicts = Vec::with_capacity(alloc, count)?;
        for t in 0..count {
            verdicts.push(self.verdict(t))?;
        }
        Ok(verdicts)
    }

    // The trace, where each thread's events and leaves are, and the stretches of the run.
    fn into_parts(self) -> (Trace, Vec<GrowingPlaces>, Vec<Stretch>)
        ensures trace { result.0 ≡ self.entry.trace }
        ensures places { result.1.items ≡ self.entry.places.items }
    {
        let Follower {
            trace,
            places,
            stretches,
            ..
        } = self;
        (trace, places, stretches)
    }
}

// Whether all threads are the same.
fn all_same(verdicts: &[ThreadVerdict]) -> bool
    ensures same { result ≡ true → (t : ℕ) (v : ThreadVerdict) → slice_get verdicts.now t ≡ Some v → v ≡ Same }
    ensures another { result ≡ false → (t : ℕ) × (v : ThreadVerdict) × (slice_get verdicts.now t ≡ Some v) × (v ≢ Same) }
{
    for verdict in verdicts {
        if *verdict != ThreadVerdict::Same {
            return false;
        }
    }
    true
}

// `fit`, with states kept on the way.
fn fit_with<G: Gate>(
    alloc: Global,
    image: Image,
    trace: Trace,
    passing: &mut Passing,
    gate: &G,
) -> Result<Fitted, FitErr>
    ensures fits { IfOk result (λ f. (f.guest ≡ image) × (f.recorded ≡ trace)) }
    ensures run { IfOk result HasRun }
    ensures passed { OnOk result (ArePassed image trace passing.old.states.items → ArePassed image trace passing.new.states.items) }
    ensures refused { IfErr result (IsRefused image trace) }
{
    if let Err(cause) = same_header(&image, &trace) {
        return Err(FitErr::Refused(Verdict::Header(cause)));
    }
    let follower = followed(alloc, &image, trace, passing, gate)?;
    let verdicts = follower.verdicts(alloc)?;
    // The trace of a run is coherent, so that this is asked of other traces alone.
    if !all_same(&verdicts) {
        coherent(alloc, &follower.trace)?;
        return Err(FitErr::Refused(Verdict::Threads(verdicts)));
    }
    let (trace, growing, stretches) = follower.into_parts();
    let places = all_grown(alloc, growing)?;
    Ok(Fitted::new(alloc, image, trace, places, &stretches)?)
}

/// Whether a trace is that of a complete run of a guest's, under the budget that the trace names. The guest is run once,
/// on this thread, and the gate is told now and then of its steps, but of no entry and leave.
///
/// # Errors
/// `FitErr::NoMem` if memory runs out. Else `FitErr::Refused`, if no run of the guest has the trace. It comes with
/// `Verdict::Header` if the trace has another number of threads or of objects, and with `Verdict::Incoherent` as from
/// `coherent`. It comes with `Verdict::Threads` if not all threads of a run that follows the trace as far as any can are
/// the same. Both image and trace are dropped.
pub fn fit<G: Gate>(alloc: Global, image: Image, trace: Trace, gate: &G) -> Result<Fitted, FitErr>
    ensures fits { IfOk result (λ f. (f.guest ≡ image) × (f.recorded ≡ trace)) }
    // A complete run of the guest has the trace.
    ensures run { IfOk result HasRun }
    ensures refused { IfErr result (IsRefused image trace) }
{
    fit_with(alloc, image, trace, &mut Passing::none(alloc), gate)
}

/// `fit`, with states that the run passed: at gaps, and near the end by halves, of a run that is long enough, at most 64. The last one
/// is at the end. A state for which memory runs out isn't kept.
///
/// # Errors
/// Those of `fit`.
pub fn fit_passing<G: Gate>(
    alloc: Global,
    image: Image,
    trace: Trace,
    gate: &G,
) -> Result<(Fitted, Vec<PassedState>), FitErr>
    ensures fits { IfOk result (λ r. (r.0.guest ≡ image) × (r.0.recorded ≡ trace)) }
    ensures run { IfOk result (λ r. HasRun r.0) }
    // Each is the guest after a run that follows the trace.
    ensures passed { IfOk result (λ r. ArePassed image trace r.1.items) }
    ensures refused { IfErr result (IsRefused image trace) }
{
    let mut passing = Passing::along(alloc, &trace);
    let fitted = fit_with(alloc, image, trace, &mut passing, gate)?;
    let Passing { states, .. } = passing;
    Ok((fitted, states))
}
