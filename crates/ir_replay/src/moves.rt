//! The state at a later cut.

ghost use Rattle.std.specs.Prelude.{◌≡◌, ◌<◌, ◌≤◌, ◌↔◌, ℕ, true, false, length, slice_index_or, IfOk, IfErr, IsOk, IsTrue};
ghost use Rattle.ir_flat.specs.Flat.{idle};
ghost use Rattle.ir_cut.specs.Positions.{IsConsistentCut, cut_of};
ghost use Rattle.ir_weave.specs.Standing.{StandsAtCut, flat_in, IsBetween, OneIsBelow, positions};
ghost use Rattle.ir_weave.specs.Stepping.{steps_left};
ghost use Rattle.ir_replay.specs.Rounds.{Goes};

use crate::meter::Meter;
use crate::pace::{LONGEST_STRETCH, Pace};
use crate::passes::{finish, follow};
use crate::round::round;
use crate::stretch::{known, stretch, with_code, without_code};
use ir_cut::Cut;
use ir_fit::Fitted;
use ir_object::Hands;
use ir_thread::Thread;
use ir_weave::State;
use std::alloc::AllocError;

/// Brings the threads and objects to the target, on this thread. Each entry of the order takes one step of that thread,
/// or nothing where the guest has no such thread, or this one is at its target or its next step isn't admitted. After
/// the order come passes over the threads from 0 upwards, in which each advances as far as it can by itself, until all
/// are at their targets. The state at the target doesn't depend on the order. Takes no memory, and time linear in the
/// steps up to the target, the entries of the order and, for each pass, the threads.
pub fn advance_in_order(fitted: &Fitted, state: State, target: &Cut, order: &[u8]) -> State
    requires state { StandsAtCut fitted.now (positions (flat_in fitted.now state)) state }
    requires size { length target.now ≡ length fitted.now.guest.entries }
    requires consistent { IsConsistentCut fitted.now target.now }
    requires below { (t : ℕ) → positions (flat_in fitted.now state) t ≤ cut_of target.now t }
    ensures { StandsAtCut fitted.now (cut_of target.now) result }
{
    known(fitted);
    let mut flat = with_code(fitted, state);
    follow(fitted, target.positions(), &mut flat, order);
    finish(fitted, target.positions(), &mut flat);
    without_code(flat)
}

// Whether all threads are at their targets.
fn is_there(threads: &[Thread], target: &Cut) -> bool
    requires { length target.now ≡ length threads.now }
    ensures there { result ≡ true → (t : ℕ) → t < length threads.now → cut_of target.now t ≤ (slice_index_or threads.now t idle).steps }
    ensures below { result ≡ false → (t : ℕ) × (t < length threads.now) × ((slice_index_or threads.now t idle).steps < cut_of target.now t) }
{
    for t in 0..threads.len() {
        if threads[t].steps() < target.position(t) {
            return false;
        }
    }
    true
}

// Whether at most one thread is below its target.
fn is_alone(threads: &[Thread], target: &Cut) -> bool
    requires { length target.now ≡ length threads.now }
    ensures { IsTrue result ↔ OneIsBelow target.now (λ t. (slice_index_or threads.now t idle).steps) }
{
    let mut below = 0u64;
    for t in 0..threads.len() {
        if target.position(t) > threads[t].steps() {
            below = below.saturating_add(1);
        }
    }
    below <= 1
}

// How many steps all threads are below their targets.
fn steps_below(threads: &[Thread], target: &Cut) -> u64
    requires { length target.now ≡ length threads.now }
{
    let mut left = 0u64;
    for t in 0..threads.len() {
        left = left.saturating_add(target.position(t).saturating_sub(threads[t].steps()));
    }
    left
}

// A round of workers; or a stretch on the caller: at first, to see how fast it is, where it is faster than the workers' last round, and where
// one thread alone is below its target.
fn turn<H: Hands>(
    hands: &H,
    fitted: &Fitted,
    state: State,
    target: &Cut,
    pace: &mut Pace,
) -> Result<State, (State, AllocError)>
    requires state { StandsAtCut fitted.now (positions (flat_in fitted.now state)) state }
    requires target { (length target.now ≡ length fitted.now.guest.entries) × IsConsistentCut fitted.now target.now }
    requires below { (t : ℕ) → positions (flat_in fitted.now state) t ≤ cut_of target.now t }
    ensures ok { IfOk result (λ s. IsBetween fitted.now target.now state s) }
    ensures goes { IfOk result (λ s. Goes fitted.now target.now state s) }
    ensures err { IfErr result (λ e. e.0 ≡ state) }
    ensures alone { OneIsBelow target.now (positions (flat_in fitted.now state)) → IsOk result }
{
    if is_alone(state.threads(), target) {
        return Ok(stretch(fitted, state, target, LONGEST_STRETCH, hands));
    }
    let left = steps_below(state.threads(), target);
    let meter = Meter::start(hands, left);
    let most = pace.stretch(left);
    if most > 0 {
        let state = stretch(fitted, state, target, most, hands);
        let taken = meter.taken(steps_below(state.threads(), target));
        pace.after_stretch(taken, meter.rate(hands, taken));
        return Ok(state);
    }
    let state = round(hands, fitted, state, target, pace.millis())?;
    let taken = meter.taken(steps_below(state.threads(), target));
    pace.after_round(taken, meter.rate(hands, taken));
    Ok(state)
}

/// Brings the threads and objects to the target by rounds of workers, one for each thread, over a table that they share.
/// A worker whose next step isn't admitted looks again for some milliseconds, then ends its round. Where the caller by itself is faster, it
/// takes ever longer stretches of steps between rounds; where one thread alone has steps to take, it takes them all. What was found of this is
/// in the pace, for the next part of a long move. Each entry and leave is reported to the gate, and the steps now and then.
///
/// # Errors
/// Out of memory, with the state at a consistent cut between.
pub fn advance<H: Hands>(
    hands: &H,
    fitted: &Fitted,
    state: State,
    target: &Cut,
    pace: &mut Pace,
) -> Result<State, (State, AllocError)>
    requires state { StandsAtCut fitted.now (positions (flat_in fitted.now state)) state }
    requires target { (length target.now ≡ length fitted.now.guest.entries) × IsConsistentCut fitted.now target.now }
    requires below { (t : ℕ) → positions (flat_in fitted.now state) t ≤ cut_of target.now t }
    ensures ok { IfOk result (λ s. StandsAtCut fitted.now (cut_of target.now) s) }
    ensures err { IfErr result (λ e. IsBetween fitted.now target.now state e.0) }
    // One thread alone takes its steps without memory.
    ensures alone { OneIsBelow target.now (positions (flat_in fitted.now state)) → IsOk result }
{
    pace.look_at(fitted.trace());
    let mut state = state;
    'rounds: while !is_there(state.threads(), target) {
        state = turn(hands, fitted, state, target, pace)?;
    }
    Ok(state)
}
