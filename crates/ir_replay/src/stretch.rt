//! A state that advances by steps on the caller.

ghost use Rattle.std.specs.Prelude.{◌≡◌, ◌<◌, ◌≤◌, ℕ, length};
ghost use Rattle.ir_flat.specs.Flat.{IsFlat};
ghost use Rattle.ir_fit.specs.Fit.{HasRun};
ghost use Rattle.ir_cut.specs.Positions.{IsConsistentCut, cut_of};
ghost use Rattle.ir_weave.specs.Standing.{StandsAtCut, flat_in, IsBetween, positions};
ghost use Rattle.ir_replay.specs.Rounds.{Goes};

use crate::passes::go_on;
use ir_cut::Cut;
use ir_fit::Fitted;
use ir_flat::Flat;
use ir_object::Gate;
use ir_weave::State;

// There is a run with the trace.
pub fn known(fitted: &Fitted)
    ensures { HasRun fitted.now }
{
    fitted.image();
}

// The state's threads and objects with the code that they run.
pub fn with_code<'a>(fitted: &'a Fitted, state: State) -> Flat<'a>
    requires { IsFlat (flat_in fitted.now state) }
    ensures { result ≡ flat_in fitted.now state }
{
    let (threads, objects) = state.parts();
    Flat::new(fitted.image().code(), threads, objects)
}

// The threads and objects without it.
pub fn without_code(flat: Flat<'_>) -> State
    ensures state { result ≡ record { threads = flat.entry.threads; objects = flat.entry.objects } }
    ensures within { IsFlat flat.entry }
{
    let (threads, objects) = flat.into_parts();
    State::build(threads, objects)
}

// The state after `most` steps, or at the target.
pub fn stretch<G: Gate>(fitted: &Fitted, state: State, target: &Cut, most: u64, gate: &G) -> State
    requires state { StandsAtCut fitted.now (positions (flat_in fitted.now state)) state }
    requires target { (length target.now ≡ length fitted.now.guest.entries) × IsConsistentCut fitted.now target.now }
    requires below { (t : ℕ) → positions (flat_in fitted.now state) t ≤ cut_of target.now t }
    requires some { 0 < most }
    ensures between { IsBetween fitted.now target.now state result }
    ensures goes { Goes fitted.now target.now state result }
{
    known(fitted);
    let mut flat = with_code(fitted, state);
    go_on(fitted, target.positions(), &mut flat, most, gate);
    without_code(flat)
}
