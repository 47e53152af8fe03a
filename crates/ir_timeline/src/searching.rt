//! Searches for hits: upwards they keep states on their way, downwards they begin at states that are kept.

ghost use Rattle.std.specs.Prelude.{◌≡◌, ◌<◌, ◌≤◌, length, IfOk};
ghost use Rattle.std.specs.List.{slice_index_or};
ghost use Rattle.ir_flat.specs.Flat.{idle};
ghost use Rattle.ir_cut.specs.Positions.{EachRun, last_of, threads_of};
ghost use Rattle.ir_weave.specs.Standing.{flat_in, positions};
ghost use Rattle.ir_hits.specs.Hits.{IsFirstHit, IsLastHit};
ghost use Rattle.ir_hits.specs.Watchable.{AreWatchable};
ghost use Rattle.ir_hits.specs.Searching.{IsNextHit};
ghost use Rattle.ir_timeline.specs.Hand.{IsInHand};

use crate::cuts::last_position;
use crate::hand::InHand;
use ir_command::Hit;
use ir_fit::Fitted;
use ir_hits::{NumberedPoint, first_hit, last_hit, may_hit};
use ir_object::Hands;
use ir_replay::State;
use std::alloc::AllocError;

// How many steps a search upwards goes from one state that it keeps to the next.
const WINDOW: u64 = 1 << 20;

// Where thread t is.
fn position_of(state: &State, t: usize) -> u64
    requires { t < length state.now.threads }
    ensures { result ≡ (slice_index_or state.now.threads t idle).steps }
{
    state.threads()[t].steps()
}

// The last position of a stretch that begins at a position.
fn stretch_end(position: u64, last: u64) -> u64
    requires { position < last }
    ensures above { position < result }
    ensures within { result ≤ last }
{
    position.saturating_add(WINDOW).min(last)
}

/// Where a point first hits thread t above its present position, if one does. The threads and objects advance to there, or to the
/// thread's last position; the other threads as far as its steps need. If no point may hit the thread, they stay. On a long way it
/// keeps states; if memory runs out for one of these, the search continues without it.
///
/// # Errors
/// Out of memory, with the threads and objects at some consistent cut.
pub fn hit_above<H: Hands>(
    hands: &H,
    fitted: &Fitted,
    hand: &mut InHand,
    t: usize,
    points: &[NumberedPoint],
) -> Result<Option<Hit>, AllocError>
    requires hand { IsInHand fitted.now hand.old }
    requires thread { t < threads_of fitted.now }
    requires points { AreWatchable points.now }
    ensures hand { IsInHand fitted.now hand.new }
    ensures hit { IfOk result (λ h. EachRun fitted.now (λ run. IsFirstHit fitted.now run points.now t (positions (flat_in fitted.now hand.old.state) t) h)) }
{
    if !may_hit(t, points) {
        return Ok(None);
    }
    fitted.known();
    let last = last_position(fitted, t);
    'stretches: while position_of(&hand.state, t) < last {
        let to = stretch_end(position_of(&hand.state, t), last);
        let state = &mut hand.state;
        let found = first_hit(hands, fitted, state, t, to, points)?;
        if let Some(hit) = found {
            return Ok(Some(hit));
        }
        hand.checkpoints.pass(fitted, &hand.state);
    }
    Ok(None)
}

/// Where a point first hits thread t above its present position and at most at another, if one does. The threads and objects advance to
/// there, or to that other position; the other threads as far as its steps need.
///
/// # Errors
/// Out of memory, with the threads and objects at some consistent cut.
pub fn hit_up_to<H: Hands>(
    hands: &H,
    fitted: &Fitted,
    hand: &mut InHand,
    t: usize,
    to: u64,
    points: &[NumberedPoint],
) -> Result<Option<Hit>, AllocError>
    requires hand { IsInHand fitted.now hand.old }
    requires thread { t < threads_of fitted.now }
    requires within { (positions (flat_in fitted.now hand.old.state) t ≤ to) × (to ≤ last_of fitted.now t) }
    requires points { AreWatchable points.now }
    ensures hand { IsInHand fitted.now hand.new }
    ensures hit { IfOk result (λ h. EachRun fitted.now (λ run. IsNextHit fitted.now run points.now t (positions (flat_in fitted.now hand.old.state) t) to h)) }
{
    first_hit(hands, fitted, &mut hand.state, t, to, points)
}

/// Where a point last hits thread t below a position, if one does. It looks at one window after the other, downwards, each from a state
/// that is kept up to where the window before it began, so that it looks at each position once. The threads and objects are then at the
/// end of the window in which the hit is, or of the first. If no point may hit the thread, they stay.
///
/// # Errors
/// Out of memory, with the threads and objects at some consistent cut.
pub fn hit_below<H: Hands>(
    hands: &H,
    fitted: &Fitted,
    hand: &mut InHand,
    t: usize,
    position: u64,
    points: &[NumberedPoint],
) -> Result<Option<Hit>, AllocError>
    requires hand { IsInHand fitted.now hand.old }
    requires thread { t < threads_of fitted.now }
    requires within { position ≤ last_of fitted.now t }
    requires points { AreWatchable points.now }
    ensures hand { IsInHand fitted.now hand.new }
    ensures hit { IfOk result (λ h. EachRun fitted.now (λ run. IsLastHit fitted.now run points.now t position h)) }
{
    if position == 0 || !may_hit(t, points) {
        return Ok(None);
    }
    let alloc = hands.alloc();
    let mut to = position - 1;
    'windows: loop {
        hand.state = hand.checkpoints.restore_before(alloc, fitted, t, to)?;
        let from = position_of(&hand.state, t);
        let state = &mut hand.state;
        let found = last_hit(hands, fitted, state, t, to, points)?;
        if let Some(hit) = found {
            return Ok(Some(hit));
        }
        if from == 0 {
            return Ok(None);
        }
        to = from;
    }
}
