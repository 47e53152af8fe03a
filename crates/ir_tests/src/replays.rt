//! Traces that fit, replayed from the start.

ghost use Rattle.std.specs.Prelude.{◌≡◌, ◌<◌, true, length};
ghost use Rattle.ir_cut.specs.Positions.{IsConsistentCut};

use crate::sources::image_of;
use crate::states::same_state;
use crate::traces::{TraceRow, trace_of};
use ir_cut::{Cut, consistent, greatest, least};
use ir_fit::{Fitted, fit};
use ir_object::{Gate, Given, OpenGate};
use ir_replay::{Pace, State, advance, advance_in_order};
use ir_trace::ThreadTrace;
use std::alloc::Global;
use std::test::Fail;
use std::thread::Threads;
use std::time::Clock;

// The guest with its trace, which fits.
pub fn fitted(alloc: Global, source: &[&str], trace: TraceRow) -> Result<Fitted, Fail> {
    let trace = trace_of(alloc, trace)?;
    Ok(fit(alloc, image_of(alloc, source)?, trace, &OpenGate)?)
}

// Whether the cut has a position for each thread, and is consistent.
pub fn is_cut(fitted: &Fitted, cut: &Cut) -> bool
    ensures size { result ≡ true → length cut.now ≡ length fitted.now.guest.entries }
    ensures consistent { result ≡ true → IsConsistentCut fitted.now cut.now }
{
    cut.positions().len() == fitted.image().entries().len() && consistent(fitted, cut)
}

// The numbers of the threads' steps.
fn steps_of(alloc: Global, threads: &[ThreadTrace]) -> Result<Vec<u64>, Fail> {
    let mut steps = Vec::with_capacity(alloc, threads.len())?;
    for thread in threads {
        steps.push(thread.steps())?;
    }
    Ok(steps)
}

// The guest after each thread's last step.
pub fn last(alloc: Global, fitted: &Fitted) -> Result<Cut, Fail> {
    let positions = steps_of(alloc, fitted.trace().threads())?;
    Ok(Cut::new(positions))
}

// The least cut at or above this one with thread t at the position or further; none where this one isn't consistent, or
// the thread has fewer steps.
pub fn least_from(
    alloc: Global,
    fitted: &Fitted,
    from: &Cut,
    t: usize,
    position: u64,
) -> Result<Option<Cut>, Fail> {
    if !is_cut(fitted, from) {
        return Ok(None);
    }
    match fitted.trace().threads().get(t) {
        Some(thread) if position <= thread.steps() => {
            Ok(Some(least(alloc, fitted, from, t, position)?))
        }
        _ => Ok(None),
    }
}

// The greatest at or below it with thread t at the position or before, likewise.
pub fn greatest_from(
    alloc: Global,
    fitted: &Fitted,
    from: &Cut,
    t: usize,
    position: u64,
) -> Result<Option<Cut>, Fail> {
    if !is_cut(fitted, from) {
        return Ok(None);
    }
    match fitted.trace().threads().get(t) {
        Some(thread) if position <= thread.steps() => {
            Ok(Some(greatest(alloc, fitted, from, t, position)?))
        }
        _ => Ok(None),
    }
}

// `threads` threads before their first steps.
fn start_of(alloc: Global, threads: usize) -> Result<Cut, Fail> {
    let mut zeros = Vec::new(alloc);
    zeros.resize(threads, 0)?;
    Ok(Cut::new(zeros))
}

// The least cut with thread t at the position; none where it has fewer steps.
pub fn least_at(
    alloc: Global,
    fitted: &Fitted,
    t: usize,
    position: u64,
) -> Result<Option<Cut>, Fail> {
    let start = start_of(alloc, fitted.image().entries().len())?;
    least_from(alloc, fitted, &start, t, position)
}

// The guest at the cut, by way of the order; none where it isn't consistent.
pub fn by_order(
    alloc: Global,
    fitted: &Fitted,
    target: &Cut,
    order: &[u8],
) -> Result<Option<State>, Fail> {
    if !is_cut(fitted, target) {
        return Ok(None);
    }
    let start = State::start(alloc, fitted)?;
    Ok(Some(advance_in_order(fitted, start, target, order)))
}

// The same by no order but the rounds after it.
pub fn in_order(alloc: Global, fitted: &Fitted, target: &Cut) -> Result<Option<State>, Fail> {
    by_order(alloc, fitted, target, &[])
}

// The same by real threads.
pub fn by_threads<R: Threads + Clock + Sync, G: Gate + Sync>(
    rt: &R,
    alloc: Global,
    fitted: &Fitted,
    target: &Cut,
    gate: &G,
) -> Result<Option<State>, Fail> {
    if !is_cut(fitted, target) {
        return Ok(None);
    }
    let start = State::start(alloc, fitted)?;
    let hands = Given::new(rt, alloc, gate);
    match advance(&hands, fitted, start, target, &mut Pace::new()) {
        Ok(state) => Ok(Some(state)),
        Err((_state, error)) => Err(error.into()),
    }
}

// Whether both ways lead to one state at the cut.
pub fn is_same<R: Threads + Clock + Sync>(
    rt: &R,
    alloc: Global,
    fitted: &Fitted,
    target: &Cut,
) -> Result<bool, Fail> {
    let one = by_threads(rt, alloc, fitted, target, &OpenGate)?;
    let other = in_order(alloc, fitted, target)?;
    match (&one, &other) {
        (Some(one), Some(other)) => Ok(same_state(one, other)),
        _ => Ok(false),
    }
}
