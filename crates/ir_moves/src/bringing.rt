//! Where threads are relative to a target, and where moves to it stop.

ghost use Rattle.std.specs.Prelude.{◌≡◌, ◌<◌, ◌≤◌, ℕ, true, false, length, slice_index_or, IfSome};
ghost use Rattle.ir_flat.specs.Flat.{idle};
ghost use Rattle.ir_cut.specs.Positions.{IsConsistentCut, cut_of};
ghost use Rattle.ir_weave.specs.Standing.{flat_in, positions};
ghost use Rattle.ir_moves.specs.Checkpoints.{StandsAtState};
ghost use Rattle.ir_moves.specs.Parts.{IsOnWay};

use crate::parts::part_of;
use ir_cut::Cut;
use ir_fit::Fitted;
use ir_replay::State;
use ir_thread::Thread;
use std::alloc::{AllocError, Global};

// So few steps before its target a move stops no more: they are soon taken again.
const NEAR: u64 = 1 << 14;

// The least steps from one stop to the next, far from the target.
const LEAST_STRIDE: u64 = 1 << 20;

// Into how many such gaps a longer way is divided.
const GAPS: u64 = 48;

/// Whether all threads are at their targets.
pub fn is_there(threads: &[Thread], target: &Cut) -> bool
    requires { length target.now ≡ length threads.now }
    ensures there { result ≡ true → (t : ℕ) → t < length threads.now → (slice_index_or threads.now t idle).steps ≡ cut_of target.now t }
    ensures elsewhere { result ≡ false → ((t : ℕ) → t < length threads.now → (slice_index_or threads.now t idle).steps ≡ cut_of target.now t) → ⊥ }
{
    for t in 0..threads.len() {
        if threads[t].steps() != target.position(t) {
            return false;
        }
    }
    true
}

/// Whether a thread is past its target.
pub fn is_past(threads: &[Thread], target: &Cut) -> bool
    requires { length target.now ≡ length threads.now }
    ensures { result ≡ false → (t : ℕ) → t < length threads.now → (slice_index_or threads.now t idle).steps ≤ cut_of target.now t }
{
    for t in 0..threads.len() {
        if threads[t].steps() > target.position(t) {
            return true;
        }
    }
    false
}

/// How many steps the threads have taken in all.
pub fn steps_of(threads: &[Thread]) -> u64 {
    let mut steps = 0u64;
    for thread in threads {
        steps = steps.saturating_add(thread.steps());
    }
    steps
}

/// How many steps are before a cut in all.
pub fn steps_before(cut: &Cut) -> u64 {
    let mut steps = 0u64;
    for position in cut.positions() {
        steps = steps.saturating_add(*position);
    }
    steps
}

/// How many steps a move of `steps` steps goes from one stop to the next, far from its target.
pub fn gap_of(steps: u64) -> u64 {
    (steps / GAPS).max(LEAST_STRIDE)
}

// Into how many pieces what is left is divided, of which the first leads to the next stop: by gaps, and near the target by halves.
fn pieces_of(left: u64, gap: u64) -> u64
    ensures { 0 < result }
{
    if left / 2 <= gap {
        return 2;
    }
    (left / gap.max(1)).max(2)
}

/// The next cut at which a move to the target stops. None where it is near, or memory runs out.
pub fn next_stop(
    alloc: Global,
    fitted: &Fitted,
    state: &State,
    target: &Cut,
    gap: u64,
) -> Option<Cut>
    requires stands { StandsAtState fitted.now state.now }
    requires target { (length target.now ≡ length fitted.now.guest.entries) × IsConsistentCut fitted.now target.now }
    requires below { (t : ℕ) → positions (flat_in fitted.now state.now) t ≤ cut_of target.now t }
    ensures { IfSome result (λ c. IsOnWay fitted.now (positions (flat_in fitted.now state.now)) (cut_of target.now) c) }
{
    let left = steps_before(target).saturating_sub(steps_of(state.threads()));
    if left <= NEAR {
        return None;
    }
    match part_of(alloc, fitted, state, target, pieces_of(left, gap)) {
        Ok(cut) => Some(cut),
        Err(AllocError) => None,
    }
}
