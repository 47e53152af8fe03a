//! Steps of a thread.

ghost use Rattle.std.specs.Prelude.{◌≡◌, ◌<◌, ◌≤◌, ◌+◌, ℕ, length, slice_index_or, IfOk, OnOk};
ghost use Rattle.ir_cut.specs.Positions.{IsConsistentCut, cut_of};
ghost use Rattle.ir_flat.specs.Flat.{idle};
ghost use Rattle.ir_weave.specs.Standing.{StandsAtCut, flat_in, positions};
ghost use Rattle.ir_hits.specs.Passing.{HasPassed};
ghost use Rattle.ir_hits.specs.Searching.{AreLast, IsHitSearch};

use crate::point::NumberedPoint;
use ir_cut::{Cut, least};
use ir_fit::Fitted;
use ir_mach::MarkedCode;
use ir_object::{Hands, MOST_UNTOLD};
use ir_replay::{Pace, State, advance, advance_alone, advance_unmarked};
use ir_thread::Thread;
use std::alloc::{AllocError, Global};
use std::mem;

// A search for where points hit thread t, up to a position.
#[derive(Clone, Copy)]
pub struct Search<'a> {
    pub fitted: &'a Fitted,
    pub t: usize,
    pub to: u64,
    // The last position of each thread.
    pub last: &'a Cut,
    // The guest's code, marked wherever a point may hit thread t.
    pub code: &'a MarkedCode<'a>,
    pub points: &'a [NumberedPoint],
}

// Thread t.
pub fn thread_of(state: &State, t: usize) -> &Thread
    requires { t < length state.now.threads }
    ensures { result.now ≡ slice_index_or state.now.threads t idle }
{
    &state.threads()[t]
}

// The last positions of the threads.
pub fn last_cut(alloc: Global, fitted: &Fitted) -> Result<Cut, AllocError>
    ensures { IfOk result (AreLast fitted.now) }
{
    fitted.known();
    let threads = fitted.trace().threads();
    let mut positions = Vec::with_capacity(alloc, threads.len())?;
    for t in 0..threads.len() {
        positions.push(threads[t].steps())?;
    }
    Ok(Cut::new(positions))
}

// Where the threads are.
fn cut_here(alloc: Global, threads: &[Thread]) -> Result<Cut, AllocError>
    ensures size { IfOk result (λ c. length c ≡ length threads.now) }
    ensures here { IfOk result (λ c. (t : ℕ) → t < length threads.now → cut_of c t ≡ (slice_index_or threads.now t idle).steps) }
{
    let mut positions = Vec::with_capacity(alloc, threads.len())?;
    for t in 0..threads.len() {
        positions.push(threads[t].steps())?;
    }
    Ok(Cut::new(positions))
}

// Brings the threads and objects to a later cut, or to one between.
fn bring<H: Hands>(
    hands: &H,
    fitted: &Fitted,
    state: &mut State,
    target: &Cut,
) -> Result<(), AllocError>
    requires stands { StandsAtCut fitted.now (positions (flat_in fitted.now state.old)) state.old }
    requires target { (length target.now ≡ length fitted.now.guest.entries) × IsConsistentCut fitted.now target.now }
    requires below { (t : ℕ) → positions (flat_in fitted.now state.old) t ≤ cut_of target.now t }
    ensures stands { StandsAtCut fitted.now (positions (flat_in fitted.now state.new)) state.new }
    ensures there { OnOk result ((t : ℕ) → positions (flat_in fitted.now state.new) t ≡ cut_of target.now t) }
{
    let alloc = hands.alloc();
    let none = State::build(Vec::new(alloc), Vec::new(alloc));
    match advance(
        hands,
        fitted,
        mem::replace(state, none),
        target,
        &mut Pace::new(),
    ) {
        Ok(there) => {
            *state = there;
            Ok(())
        }
        Err((between, error)) => {
            *state = between;
            Err(error)
        }
    }
}

// Thread t takes its next step. The others stay, or go on as far as that step needs them.
fn take_step<H: Hands>(
    hands: &H,
    fitted: &Fitted,
    state: &mut State,
    t: usize,
    last: &Cut,
) -> Result<(), AllocError>
    requires stands { StandsAtCut fitted.now (positions (flat_in fitted.now state.old)) state.old }
    requires thread { t < length fitted.now.guest.entries }
    requires last { AreLast fitted.now last.now }
    requires below { positions (flat_in fitted.now state.old) t < cut_of last.now t }
    ensures stands { StandsAtCut fitted.now (positions (flat_in fitted.now state.new)) state.new }
    ensures taken { OnOk result (positions (flat_in fitted.now state.new) t ≡ positions (flat_in fitted.now state.old) t + 1) }
{
    fitted.known();
    let alloc = hands.alloc();
    let none = State::build(Vec::new(alloc), Vec::new(alloc));
    let (here, taken) = advance_alone(fitted, mem::replace(state, none), t, last, 1, hands);
    *state = here;
    if taken == 1 {
        return Ok(());
    }
    let at = cut_here(alloc, state.threads())?;
    let next = least(alloc, fitted, &at, t, thread_of(state, t).steps() + 1)?;
    bring(hands, fitted, state, &next)
}

// The thread advances, at most to the end of the search: over instructions none of which is marked; or by its next step, if that isn't such
// a one. The others stay, or advance as far as that step needs them.
pub fn take_steps<H: Hands>(
    hands: &H,
    search: Search<'_>,
    state: &mut State,
) -> Result<(), AllocError>
    requires search { IsHitSearch search.fitted.now search.t search.to search.last.now search.code.now search.points.now }
    requires stands { StandsAtCut search.fitted.now (positions (flat_in search.fitted.now state.old)) state.old }
    requires below { positions (flat_in search.fitted.now state.old) search.t < search.to }
    ensures stands { StandsAtCut search.entry.fitted.now (positions (flat_in search.entry.fitted.now state.new)) state.new }
    ensures passed { OnOk result (HasPassed search.entry.code.now search.entry.t search.entry.to (flat_in search.entry.fitted.now state.old) (flat_in search.entry.fitted.now state.new)) }
{
    let Search {
        fitted,
        t,
        last,
        ..
    } = search;
    fitted.known();
    let most = (search.to - thread_of(state, t).steps()).min(MOST_UNTOLD);
    let alloc = hands.alloc();
    let none = State::build(Vec::new(alloc), Vec::new(alloc));
    let here = mem::replace(state, none);
    let (there, taken) = advance_unmarked(fitted, here, t, last, search.code, most);
    *state = there;
    if taken > 0 {
        hands.stepped(thread_of(state, t).number(), taken);
        return Ok(());
    }
    take_step(hands, fitted, state, t, last)
}
