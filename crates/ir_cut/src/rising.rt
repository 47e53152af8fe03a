//! The least consistent cut that has a thread at a position or further.

ghost use Rattle.std.specs.Prelude.{◌≡◌, ◌<◌, ◌≤◌, ℕ, List, length, slice_get, Some, IfOk, IfSome, IfNone};
ghost use Rattle.std.specs.List.Sorted.{IsNonDecreasingBy};
ghost use Rattle.ir_trace.specs.Recorded.{recorded_thread};
ghost use Rattle.ir_cut.specs.Positions.{EachRun, IsConsistentCut, cut_of};
ghost use Rattle.ir_fit.specs.Within.{IsFitted};
ghost use Rattle.ir_cut.specs.Searching.{AreFirst, HasBelow, NoneBelow, Rising, events_left, IsLeastCut};

use crate::cut::Cut;
use crate::logs::log_of;
use crate::needs::raise_for;
use ir_fit::Fitted;
use std::alloc::{AllocError, Global};

// How many positions are below this one, where they rise.
fn count_below(places: &[u64], position: u64) -> usize
    requires { IsNonDecreasingBy (λ (i : ℕ). i) places.now }
    ensures { (e i : ℕ) → e < result → slice_get places.now e ≡ Some i → i < position }
{
    places.partition_point(|place| *place < position)
}

// How many events of each thread are steps of the cut.
fn events_inside(
    alloc: Global,
    fitted: &Fitted,
    positions: &[u64],
) -> Result<Vec<usize>, AllocError>
    requires fitted { IsFitted fitted.now }
    requires size { length positions.now ≡ length fitted.now.guest.entries }
    ensures size { IfOk result (λ next. length next.items ≡ length fitted.now.guest.entries) }
    ensures first { IfOk result (λ next. (t : ℕ) → t < length fitted.now.guest.entries → AreFirst fitted.now positions.now t (cut_of next.items t)) }
{
    let mut next = Vec::with_capacity(alloc, positions.len())?;
    for t in 0..positions.len() {
        next.push(count_below(fitted.entries(t), positions[t]))?;
    }
    Ok(next)
}

// A thread whose next event is a step of the cut.
fn thread_below(fitted: &Fitted, positions: &[u64], next: &[usize]) -> Option<usize>
    requires size { length positions.now ≡ length fitted.now.guest.entries }
    requires each { length next.now ≡ length fitted.now.guest.entries }
    ensures found { IfSome result (λ t. (t < length fitted.now.guest.entries) × HasBelow fitted.now positions.now next.now t) }
    ensures none { IfNone result ((t : ℕ) → t < length fitted.now.guest.entries → NoneBelow fitted.now positions.now next.now t) }
{
    for t in 0..positions.len() {
        if let Some(place) = fitted.entries(t).get(next[t]) {
            if *place < positions[t] {
                return Some(t);
            }
        }
    }
    None
}

// What the next event of thread t needs is brought inside.
fn take_event(fitted: &Fitted, positions: &mut Vec<u64>, next: &mut Vec<usize>, t: usize)
    requires fitted { IsFitted fitted.now }
    requires size { length positions.old.items ≡ length fitted.now.guest.entries }
    requires each { length next.old.items ≡ length fitted.now.guest.entries }
    requires thread { t < length fitted.now.guest.entries }
    requires below { HasBelow fitted.now positions.old.items next.old.items t }
    ensures size { length positions.new.items ≡ length positions.old.items }
    ensures each { length next.new.items ≡ length next.old.items }
    ensures fewer { events_left fitted.now next.new.items < events_left fitted.now next.old.items }
    ensures rises { (ps : List ℕ) (u k : ℕ) → EachRun fitted.now (Rising fitted.now ps u k positions.old.items next.old.items)
        → EachRun fitted.now (Rising fitted.now ps u k positions.new.items next.new.items) }
{
    let i = next[t];
    let event = log_of(fitted, t)[i];
    raise_for(fitted, positions, event);
    next[t] = i + 1;
}

// Continues until what all events of the cut need is inside.
fn rise(fitted: &Fitted, positions: &mut Vec<u64>, next: &mut Vec<usize>)
    requires fitted { IsFitted fitted.now }
    requires size { length positions.old.items ≡ length fitted.now.guest.entries }
    requires each { length next.old.items ≡ length fitted.now.guest.entries }
    ensures size { length positions.new.items ≡ length positions.old.items }
    ensures rises { (ps : List ℕ) (u k : ℕ) → EachRun fitted.now (Rising fitted.now ps u k positions.old.items next.old.items)
        → EachRun fitted.now (Rising fitted.now ps u k positions.new.items next.new.items) }
    ensures over { (t : ℕ) → t < length fitted.now.guest.entries → NoneBelow fitted.now positions.new.items next.new.items t }
{
    'events: while let Some(t) = thread_below(fitted, positions.as_slice(), next.as_slice()) {
        take_event(fitted, positions, next, t);
    }
}

/// The consistent cut at or above `cut` with thread t at k or further that lies below every other such cut. Where k is
/// not below the thread's position in `cut`, it has the thread exactly at k. Takes time linear in the entries between
/// both cuts, the leaves that these need, and the logarithm of the events before.
///
/// # Errors
/// Out of memory.
pub fn least(alloc: Global, fitted: &Fitted, cut: &Cut, t: usize, k: u64) -> Result<Cut, AllocError>
    requires size { length cut.now ≡ length fitted.now.guest.entries }
    requires consistent { IsConsistentCut fitted.now cut.now }
    requires thread { t < length fitted.now.guest.entries }
    requires steps { k ≤ (recorded_thread fitted.now.recorded t).steps }
    ensures least { IfOk result (λ c. IsLeastCut fitted.now cut.now t k c) }
    // What holds whatever run has the trace.
    ensures above { IfOk result (λ c. (u : ℕ) → cut_of cut.now u ≤ cut_of c u) }
    ensures consistent { IfOk result (λ c. IsConsistentCut fitted.now c) }
    ensures exact { IfOk result (λ c. cut_of cut.now t ≤ k → cut_of c t ≡ k) }
{
    fitted.known();
    let mut next = events_inside(alloc, fitted, cut.positions())?;
    let mut positions = Vec::from_slice(alloc, cut.positions())?;
    positions[t] = positions[t].max(k);
    rise(fitted, &mut positions, &mut next);
    Ok(Cut::new(positions))
}
