//! One thread that advances by itself.

ghost use Rattle.ir_flat.specs.Flat.{thread_of};
ghost use Rattle.ir_thread.specs.Private.{UnmarkedSteps};
ghost use Rattle.std.specs.Prelude.{◌≡◌, ◌<◌, ◌≤◌, ℕ, length};
ghost use Rattle.ir_cut.specs.Positions.{IsConsistentCut, cut_of};
ghost use Rattle.ir_weave.specs.Standing.{StandsAtCut, flat_in, positions};
ghost use Rattle.ir_weave.specs.Stepping.{HasGone, RestsAtTarget};
ghost use Rattle.ir_replay.specs.Alone.{RestsUnmarked};

use crate::stepping::{go, left};
use crate::stretch::{known, with_code, without_code};
use ir_cut::Cut;
use ir_fit::Fitted;
use ir_mach::MarkedCode;
use ir_object::Gate;
use ir_weave::State;

/// Takes thread t on by itself: until it has taken `most` steps, is at its target, or its next step isn't admitted, while the
/// others stay where they are. The state then, and how many steps it took. Takes no memory. Each entry and leave is reported to the gate.
pub fn advance_alone<G: Gate>(
    fitted: &Fitted,
    state: State,
    t: usize,
    target: &Cut,
    most: u64,
    gate: &G,
) -> (State, u64)
    requires state { StandsAtCut fitted.now (positions (flat_in fitted.now state)) state }
    requires target { (length target.now ≡ length fitted.now.guest.entries) × IsConsistentCut fitted.now target.now }
    requires below { (u : ℕ) → positions (flat_in fitted.now state) u ≤ cut_of target.now u }
    requires thread { t < length fitted.now.guest.entries }
    ensures stands { StandsAtCut fitted.now (positions (flat_in fitted.now result.0)) result.0 }
    ensures below { (u : ℕ) → positions (flat_in fitted.now result.0) u ≤ cut_of target.now u }
    ensures within { result.1 ≤ most }
    ensures gone { HasGone (flat_in fitted.now state) (flat_in fitted.now result.0) t result.1 }
    ensures rests { result.1 < most → RestsAtTarget fitted.now target.now (flat_in fitted.now result.0) t }
{
    known(fitted);
    let mut flat = with_code(fitted, state);
    let taken = go(fitted, target.positions(), &mut flat, t, most, gate);
    (without_code(flat), taken)
}

/// Takes thread t on by itself over instructions none of which is marked: until it has taken `most` of them, is at its target, or its
/// next step is marked or no instruction, while the others stay where they are. The marked code is the guest's. The state then, and how
/// many steps it took. Takes no memory.
pub fn advance_unmarked(
    fitted: &Fitted,
    state: State,
    t: usize,
    target: &Cut,
    code: &MarkedCode<'_>,
    most: u64,
) -> (State, u64)
    requires state { StandsAtCut fitted.now (positions (flat_in fitted.now state)) state }
    requires target { (length target.now ≡ length fitted.now.guest.entries) × IsConsistentCut fitted.now target.now }
    requires below { (u : ℕ) → positions (flat_in fitted.now state) u ≤ cut_of target.now u }
    requires thread { t < length fitted.now.guest.entries }
    requires code { code.now.words ≡ fitted.now.guest.code }
    ensures stands { StandsAtCut fitted.now (positions (flat_in fitted.now result.0)) result.0 }
    ensures below { (u : ℕ) → positions (flat_in fitted.now result.0) u ≤ cut_of target.now u }
    ensures within { result.1 ≤ most }
    ensures gone { HasGone (flat_in fitted.now state) (flat_in fitted.now result.0) t result.1 }
    ensures unmarked { UnmarkedSteps code.now result.1 (thread_of (flat_in fitted.now state) t) (thread_of (flat_in fitted.now result.0) t) }
    ensures stops { result.1 < most → RestsUnmarked target.now code.now (flat_in fitted.now result.0) t }
{
    known(fitted);
    let mut flat = with_code(fitted, state);
    let limit = left(target.positions(), &flat, t).min(most);
    let taken = flat.run_unmarked(t, code, limit);
    (without_code(flat), taken)
}
