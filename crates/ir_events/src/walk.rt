//! The pcs of all events, by one walk over the run.

ghost use Rattle.std.specs.Prelude.{◌≡◌, ◌<◌, ◌≤◌, ℕ, [], true, false, length, slice_index_or, IfOk, OnOk};
ghost use Rattle.ir_flat.specs.Flat.{idle};
ghost use Rattle.ir_cut.specs.Positions.{cut_of};
ghost use Rattle.ir_events.specs.Events.{ArePcs};
ghost use Rattle.ir_events.specs.Walk.{AreEnds, IsOnWalk, AreEventsListed, IsWalkPass};

use crate::lists::{EventPcs, ThreadPcs};
use crate::visit::visit_thread;
use ir_cut::Cut;
use ir_fit::Fitted;
use ir_replay::State;
use ir_thread::Thread;
use std::alloc::{AllocError, Global};

/// Where the threads end: the last position of each.
///
/// # Errors
/// Out of memory.
pub fn ends_of(alloc: Global, fitted: &Fitted) -> Result<Cut, AllocError>
    ensures { IfOk result (AreEnds fitted.now) }
{
    let threads = fitted.trace().threads();
    let mut positions = Vec::with_capacity(alloc, threads.len())?;
    for t in 0..threads.len() {
        positions.push(threads[t].steps())?;
    }
    Ok(Cut::new(positions))
}

// A list with no pc for each thread.
fn empty_lists(alloc: Global, fitted: &Fitted) -> Result<Vec<ThreadPcs>, AllocError>
    ensures size { IfOk result (λ v. length v.items ≡ length fitted.now.guest.entries) }
    ensures empty { IfOk result (λ v. (t : ℕ) → t < length v.items → slice_index_or v.items t [] ≡ []) }
{
    let threads = fitted.trace().threads();
    let mut lists = Vec::with_capacity(alloc, threads.len())?;
    for t in 0..threads.len() {
        lists.push(ThreadPcs::new(alloc, threads[t].log().events().len())?)?;
    }
    Ok(lists)
}

/// Whether each thread is at its end.
pub fn are_done(threads: &[Thread], ends: &Cut) -> bool
    requires { length ends.now ≡ length threads.now }
    ensures done { result ≡ true → (t : ℕ) → t < length threads.now → cut_of ends.now t ≤ (slice_index_or threads.now t idle).steps }
    ensures below { result ≡ false → (t : ℕ) × (t < length threads.now) × ((slice_index_or threads.now t idle).steps < cut_of ends.now t) }
{
    for t in 0..threads.len() {
        if threads[t].steps() < ends.position(t) {
            return false;
        }
    }
    true
}

// Takes each thread in turn as far as it can go by itself, and lists the pcs of its events on the way.
fn pass(
    fitted: &Fitted,
    state: State,
    ends: &Cut,
    lists: &mut [ThreadPcs],
) -> Result<State, AllocError>
    requires way { IsOnWalk fitted.now ends.now state }
    requires ends { AreEnds fitted.now ends.now }
    requires size { length lists.old ≡ length fitted.now.guest.entries }
    requires listed { AreEventsListed fitted.now state lists.old }
    ensures size { length lists.new ≡ length lists.old }
    ensures passed { IfOk result (IsWalkPass fitted.now ends.now (length lists.old) state) }
    ensures listed { IfOk result (λ s. AreEventsListed fitted.now s lists.new) }
{
    let mut state = state;
    for t in 0..lists.len() {
        state = visit_thread(fitted, state, t, ends, &mut lists[t])?;
    }
    Ok(state)
}

// Takes all threads to their ends, and lists the pcs of their events on the way.
fn walk(
    fitted: &Fitted,
    state: State,
    ends: &Cut,
    lists: &mut [ThreadPcs],
) -> Result<(), AllocError>
    requires way { IsOnWalk fitted.now ends.now state }
    requires ends { AreEnds fitted.now ends.now }
    requires size { length lists.old ≡ length fitted.now.guest.entries }
    requires listed { AreEventsListed fitted.now state lists.old }
    ensures { OnOk result (ArePcs fitted.now lists.new) }
{
    let mut state = state;
    'passes: while !are_done(state.threads(), ends) {
        state = pass(fitted, state, ends, lists)?;
    }
    Ok(())
}

/// The pc of the step that logs each event of each thread, before that step. Walks over the run once, in as many passes over
/// the threads as they wait for one another.
///
/// # Errors
/// Out of memory.
pub fn pcs(alloc: Global, fitted: &Fitted) -> Result<EventPcs, AllocError>
    ensures { IfOk result (ArePcs fitted.now) }
{
    let ends = ends_of(alloc, fitted)?;
    let mut lists = empty_lists(alloc, fitted)?;
    let state = State::start(alloc, fitted)?;
    walk(fitted, state, &ends, &mut lists)?;
    Ok(EventPcs::new(lists))
}
