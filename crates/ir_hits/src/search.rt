//! Where points hit a thread, found by taking the thread's steps again, in one call where no point can hit.

ghost use Rattle.std.specs.Prelude.{◌≡◌, ◌<◌, ◌≤◌, ◌+◌, List, None, false, length, IfOk, OnOk};
ghost use Rattle.ir_runs.specs.Run.{Step};
ghost use Rattle.ir_fit.specs.Fit.{FittedTrace};
ghost use Rattle.ir_trace.specs.Recorded.{recorded_thread};
ghost use Rattle.ir_cut.specs.Positions.{EachRun};
ghost use Rattle.ir_weave.specs.Standing.{StandsAtCut, flat_in, positions};
ghost use Rattle.ir_hits.specs.Watchable.{AreWatchable};
ghost use Rattle.ir_hits.specs.Searching.{IsLastFrom, IsNextHit, IsHitSearch, IsStartHit, NeverHits, reached_position, window_start};

use crate::before::Before;
use crate::marking::marked_code;
use crate::point::NumberedPoint;
use crate::seeing::{lowest, note_all, some_concerns};
use crate::stepping::{Search, last_cut, take_steps, thread_of};
use ir_command::Hit;
use ir_fit::Fitted;
use ir_object::Hands;
use ir_replay::State;
use ir_thread::Thread;
use std::alloc::AllocError;

/// Whether some point may hit thread t, wherever it is.
pub fn may_hit(t: usize, points: &[NumberedPoint]) -> bool
    ensures { result ≡ false → (f : FittedTrace) (run : List Step) → NeverHits f run points.now t }
{
    some_concerns(t, points)
}

// Where a point hits the thread next. The thread advances to there, or to the end of the search if none does.
fn next_hit<H: Hands>(
    hands: &H,
    search: Search<'_>,
    state: &mut State,
    notes: &mut [Before],
) -> Result<Option<Hit>, AllocError>
    requires search { IsHitSearch search.fitted.now search.t search.to search.last.now search.code.now search.points.now }
    requires stands { StandsAtCut search.fitted.now (positions (flat_in search.fitted.now state.old)) state.old }
    requires within { positions (flat_in search.fitted.now state.old) search.t ≤ search.to }
    requires size { length notes.old ≡ length search.points.now }
    ensures stands { StandsAtCut search.entry.fitted.now (positions (flat_in search.entry.fitted.now state.new)) state.new }
    ensures hit { IfOk result
        (λ h. EachRun search.entry.fitted.now
        (λ run. IsNextHit search.entry.fitted.now run search.entry.points.now search.entry.t
        (positions (flat_in search.entry.fitted.now state.old) search.entry.t) search.entry.to h)) }
    ensures reached { IfOk result (λ h. positions (flat_in search.entry.fitted.now state.new) search.entry.t ≡ reached_position search.entry.to h) }
    ensures size { length notes.new ≡ length notes.old }
{
    let t = search.t;
    let code = search.fitted.image().code();
    let end = search.last.position(t);
    'steps: while thread_of(state, t).steps() < search.to {
        note_all(thread_of(state, t), code, t, search.points, notes);
        take_steps(hands, search, state)?;
        let thread = thread_of(state, t);
        if let Some(number) = lowest(thread, t, end, search.points, notes) {
            let position = thread.steps();
            return Ok(Some(Hit { position, number }));
        }
    }
    Ok(None)
}

/// Where a point first hits thread t above its present position and at most at another, if one does. The threads and objects
/// advance to there, or to that other position; the other threads as far as its steps need.
///
/// # Errors
/// Out of memory, with the threads and objects at some consistent cut.
pub fn first_hit<H: Hands>(
    hands: &H,
    fitted: &Fitted,
    state: &mut State,
    t: usize,
    to: u64,
    points: &[NumberedPoint],
) -> Result<Option<Hit>, AllocError>
    requires stands { StandsAtCut fitted.now (positions (flat_in fitted.now state.old)) state.old }
    requires thread { t < length fitted.now.guest.entries }
    requires within { (positions (flat_in fitted.now state.old) t ≤ to) × (to ≤ (recorded_thread fitted.now.recorded t).steps) }
    requires points { AreWatchable points.now }
    ensures stands { StandsAtCut fitted.now (positions (flat_in fitted.now state.new)) state.new }
    ensures hit { IfOk result (λ h. EachRun fitted.now (λ run. IsNextHit fitted.now run points.now t (positions (flat_in fitted.now state.old) t) to h)) }
    ensures reached { IfOk result (λ h. positions (flat_in fitted.now state.new) t ≡ reached_position to h) }
{
    let alloc = hands.alloc();
    let last = last_cut(alloc, fitted)?;
    let code = marked_code(alloc, fitted.image().code(), t, points)?;
    let mut notes = vec![in alloc; Before::Nothing; points.len()]?;
    let search = Search {
        fitted,
        t,
        to,
        last: &last,
        code: &code,
        points,
    };
    next_hit(hands, search, state, &mut notes)
}

// The hit of thread t at its present position, if that is its start and a point hits there.
fn start_hit(
    thread: &Thread,
    t: usize,
    end: u64,
    points: &[NumberedPoint],
    notes: &[Before],
) -> Option<Hit>
    requires points { AreWatchable points.now }
    requires size { length notes.now ≡ length points.now }
    ensures start { thread.now.steps ≡ 0 → IsStartHit t end thread.now notes.now points.now result }
    ensures later { 0 < thread.now.steps → result ≡ None }
{
    if thread.steps() > 0 {
        return None;
    }
    let number = lowest(thread, t, end, points, notes)?;
    Some(Hit {
        position: 0,
        number,
    })
}

// Where a point last hits the thread up to the end of the search, where `found` is the last hit so far.
fn last_in<H: Hands>(
    hands: &H,
    search: Search<'_>,
    state: &mut State,
    notes: &mut [Before],
    found: Option<Hit>,
) -> Result<Option<Hit>, AllocError>
    requires search { IsHitSearch search.fitted.now search.t search.to search.last.now search.code.now search.points.now }
    requires stands { StandsAtCut search.fitted.now (positions (flat_in search.fitted.now state.old)) state.old }
    requires within { positions (flat_in search.fitted.now state.old) search.t ≤ search.to }
    requires size { length notes.old ≡ length search.points.now }
    requires found { EachRun search.fitted.now
        (λ run. IsLastFrom search.fitted.now run search.points.now search.t
        (window_start (positions (flat_in search.fitted.now state.old) search.t))
        (positions (flat_in search.fitted.now state.old) search.t + 1) found) }
    ensures stands { StandsAtCut search.entry.fitted.now (positions (flat_in search.entry.fitted.now state.new)) state.new }
    ensures hit { IfOk result
        (λ h. EachRun search.entry.fitted.now
        (λ run. IsLastFrom search.entry.fitted.now run search.entry.points.now search.entry.t
        (window_start (positions (flat_in search.entry.fitted.now state.old) search.entry.t)) (search.entry.to + 1) h)) }
    ensures reached { OnOk result (positions (flat_in search.entry.fitted.now state.new) search.entry.t ≡ search.entry.to) }
{
    search.fitted.known();
    let mut found = found;
    'hits: while let Some(hit) = next_hit(hands, search, state, notes)? {
        found = Some(hit);
    }
    Ok(found)
}

/// Where a point last hits thread t above its present position, or also there if that is its start, and at most at another, if
/// one does. The threads and objects advance to that other position; the other threads as far as its steps need.
///
/// # Errors
/// Out of memory, with the threads and objects at some consistent cut.
pub fn last_hit<H: Hands>(
    hands: &H,
    fitted: &Fitted,
    state: &mut State,
    t: usize,
    to: u64,
    points: &[NumberedPoint],
) -> Result<Option<Hit>, AllocError>
    requires stands { StandsAtCut fitted.now (positions (flat_in fitted.now state.old)) state.old }
    requires thread { t < length fitted.now.guest.entries }
    requires within { (positions (flat_in fitted.now state.old) t ≤ to) × (to ≤ (recorded_thread fitted.now.recorded t).steps) }
    requires points { AreWatchable points.now }
    ensures stands { StandsAtCut fitted.now (positions (flat_in fitted.now state.new)) state.new }
    ensures hit { IfOk result (λ h. EachRun fitted.now (λ run. IsLastFrom fitted.now run points.now t (window_start (positions (flat_in fitted.now state.old) t)) (to + 1) h)) }
    ensures reached { OnOk result (positions (flat_in fitted.now state.new) t ≡ to) }
{
    let alloc = hands.alloc();
    let last = last_cut(alloc, fitted)?;
    let code = marked_code(alloc, fitted.image().code(), t, points)?;
    let mut notes = vec![in alloc; Before::Nothing; points.len()]?;
    let end = last.position(t);
    let found = start_hit(thread_of(state, t), t, end, points, &notes);
    let search = Search {
        fitted,
        t,
        to,
        last: &last,
        code: &code,
        points,
    };
    last_in(hands, search, state, &mut notes, found)
}
