//! The walk over a run that finds which rows rest on their reads.

ghost use Rattle.std.specs.Prelude.{◌≡◌, ◌<◌, ◌≤◌, ℕ, true, false, length, IfOk, OnOk};
ghost use Rattle.ir_trace.specs.Recorded.{recorded_thread};
ghost use Rattle.ir_weave.specs.Standing.{flat_in, positions};
ghost use Rattle.ir_past.specs.Past.{AreStaleWrites};
ghost use Rattle.ir_events.specs.Walk.{IsOnWalk, IsWalkPass};
ghost use Rattle.ir_stale_run.specs.Rests.{AreRests};
ghost use Rattle.ir_stale_run.specs.Watch.{IsGuide, AreFound, AreBegun, AreWatched};

use crate::closing::close_due;
use crate::found::Found;
use crate::guide::Guide;
use crate::known::{all_known, has_unknown, none_found};
use crate::rest::Rest;
use crate::visit::visit_thread;
use crate::watch::Watch;
use crate::watches::watches;
use ir_event_walk::{Route, thread_of, unmarked};
use ir_events::{are_done, ends_of};
use ir_fit::Fitted;
use ir_past::StaleWrite;
use ir_replay::State;
use std::alloc::{AllocError, Global};

// Takes each thread in turn as far as it can go by itself.
fn pass(
    guide: Guide<'_, '_>,
    state: State,
    watches: &mut [Watch],
    rests: &mut [Found],
) -> Result<State, AllocError>
    requires guide { IsGuide guide.route.fitted.now guide.rows.now guide.route.ends.now guide.route.code.now }
    requires way { IsOnWalk guide.route.fitted.now guide.route.ends.now state }
    requires watches { length watches.old ≡ length guide.route.fitted.now.guest.entries }
    requires size { length rests.old ≡ length guide.rows.now }
    requires watched { AreWatched guide.copies guide.route.fitted.now guide.rows.now state watches.old rests.old }
    ensures passed { IfOk result (IsWalkPass guide.entry.route.fitted.now guide.entry.route.ends.now (length watches.old) state) }
    ensures watches { length watches.new ≡ length watches.old }
    ensures size { OnOk result (length rests.new ≡ length rests.old) }
    ensures watched { IfOk result (λ s. AreWatched guide.entry.copies guide.entry.route.fitted.now guide.entry.rows.now s watches.new rests.new) }
{
    let mut state = state;
    for t in 0..watches.len() {
        state = visit_thread(guide, state, t, &mut watches[t], rests)?;
    }
    Ok(state)
}

// Closes the rows that end where the threads do, at whose ends the state is.
fn close_all(guide: Guide<'_, '_>, state: &State, watches: &mut [Watch], rests: &mut [Found])
    requires guide { IsGuide guide.route.fitted.now guide.rows.now guide.route.ends.now guide.route.code.now }
    requires way { IsOnWalk guide.route.fitted.now guide.route.ends.now state.now }
    requires size { length rests.old ≡ length guide.rows.now }
    requires watches { length watches.old ≡ length guide.route.fitted.now.guest.entries }
    requires watched { AreWatched guide.copies guide.route.fitted.now guide.rows.now state.now watches.old rests.old }
    requires ended { (t : ℕ) → t < length guide.route.fitted.now.guest.entries → (recorded_thread guide.route.fitted.now.recorded t).steps ≤ positions (flat_in guide.route.fitted.now state.now) t }
    ensures size { length rests.new ≡ length rests.old }
    ensures found { AreFound guide.entry.copies guide.entry.route.fitted.now guide.entry.rows.now rests.new }
{
    for t in 0..watches.len() {
        let k = thread_of(state, t).steps();
        close_due(guide, t, k, &mut watches[t], rests);
    }
}

// Takes all threads to their ends.
fn walk_on(
    guide: Guide<'_, '_>,
    state: State,
    watches: &mut [Watch],
    rests: &mut [Found],
) -> Result<(), AllocError>
    requires guide { IsGuide guide.route.fitted.now guide.rows.now guide.route.ends.now guide.route.code.now }
    requires way { IsOnWalk guide.route.fitted.now guide.route.ends.now state }
    requires watches { length watches.old ≡ length guide.route.fitted.now.guest.entries }
    requires size { length rests.old ≡ length guide.rows.now }
    requires watched { AreWatched guide.copies guide.route.fitted.now guide.rows.now state watches.old rests.old }
    ensures size { OnOk result (length rests.new ≡ length rests.old) }
    ensures found { OnOk result (AreFound guide.entry.copies guide.entry.route.fitted.now guide.entry.rows.now rests.new) }
{
    let mut state = state;
    'passes: while !are_done(state.threads(), guide.route.ends) {
        state = pass(guide, state, watches, rests)?;
    }
    close_all(guide, &state, watches, rests);
    Ok(())
}

// Walks over the run, and finds of each row that is looked at what there is to find.
fn walk(guide: Guide<'_, '_>, rests: &mut [Found]) -> Result<(), AllocError>
    requires guide { IsGuide guide.route.fitted.now guide.rows.now guide.route.ends.now guide.route.code.now }
    requires size { length rests.old ≡ length guide.rows.now }
    requires begun { AreBegun guide.copies guide.route.fitted.now guide.rows.now rests.old }
    ensures size { OnOk result (length rests.new ≡ length rests.old) }
    ensures found { OnOk result (AreFound guide.entry.copies guide.entry.route.fitted.now guide.entry.rows.now rests.new) }
{
    let mut watches = watches(guide, rests)?;
    let state = State::start(guide.route.alloc, guide.route.fitted)?;
    walk_on(guide, state, &mut watches, rests)
}

// Walks once more, with copies of the threads, if a row is unknown.
fn walk_again(guide: Guide<'_, '_>, rests: &mut [Found]) -> Result<(), AllocError>
    requires guide { IsGuide guide.route.fitted.now guide.rows.now guide.route.ends.now guide.route.code.now }
    requires size { length rests.old ≡ length guide.rows.now }
    requires found { AreFound false guide.route.fitted.now guide.rows.now rests.old }
    ensures size { OnOk result (length rests.new ≡ length rests.old) }
    ensures found { OnOk result (AreFound true guide.entry.route.fitted.now guide.entry.rows.now rests.new) }
{
    if !has_unknown(rests) {
        return Ok(());
    }
    let guide = Guide {
        copies: true,
        ..guide
    };
    walk(guide, rests)
}

/// How each of a fitted trace's stale writes, which `ir_past::stale_writes` lists, rests on its read, if it does. Walks over the run once,
/// in as many passes over the threads as they wait for one another, and once more if a row needs a copy of its thread: if its write
/// entry's hold puts a word, and a word that was got in the read's hold is another. Time is linear in the steps that the threads take,
/// and in the steps between a row's read entry and its last leave. The calls of the thread are kept from that entry to that leave, and
/// the copy where one is needed.
///
/// # Errors
/// Out of memory.
pub fn rests(
    alloc: Global,
    fitted: &Fitted,
    rows: &[StaleWrite],
) -> Result<Vec<Option<Rest>>, AllocError>
    requires { AreStaleWrites fitted.now.recorded rows.now }
    ensures { IfOk result (λ found. AreRests fitted.now rows.now found.items) }
{
    let ends = ends_of(alloc, fitted)?;
    let code = unmarked(alloc, fitted.image().code())?;
    let route = Route {
        alloc,
        fitted,
        ends: &ends,
        code: &code,
    };
    let guide = Guide {
        route,
        rows,
        copies: false,
    };
    let mut found = none_found(alloc, rows.len())?;
    walk(guide, &mut found)?;
    walk_again(guide, &mut found)?;
    all_known(alloc, &found)
}
