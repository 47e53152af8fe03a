//! Guests of two threads with one object, brought to cuts by different orders, and by threads that wait for each other.

use crate::guests::{HANDED_ON, NOTED_CLOCK, Source, TWO_COUNTERS, TWO_READERS};
use crate::meeting::{Handing, Meeting};
use crate::replays::{by_order, by_threads, fitted};
use crate::states::same_state;
use crate::traces::EventRow::{Clock, Read, Write};
use crate::traces::{BOTH_READ, Ran, SECOND_FIRST, TraceRow};
use ir_cut::Cut;
use ir_fit::Fitted;
use ir_object::{Fields, Gate};
use ir_replay::State;
use std::alloc::Global;
use std::process::Abort;
use std::test::Fail;
use std::thread::Threads;
use std::time;

type Pair = (u64, u64);

// Both threads read version 0; then thread 1 writes it and thread 0 version 1. The clock says 70 to thread 0 and 80 to 1.
const NOTED: TraceRow = TraceRow {
    objects: 1,
    budget: 1000,
    threads: &[
        Ran(18, 1, 0, &[Clock(70), Read(0, 0), Write(0, 1, 0)]),
        Ran(18, 1, 0, &[Clock(80), Read(0, 0), Write(0, 0, 2)]),
    ],
};

// The state at the cut by way of the order; none where the cut isn't consistent.
fn state_at(alloc: Global, fitted: &Fitted, at: Pair, order: &[u8]) -> Result<Option<State>, Fail> {
    let target = Cut::new(Vec::from_slice(alloc, &[at.0, at.1])?);
    by_order(alloc, fitted, &target, order)
}

const ORDERS: [&[u8]; 4] = [
    &[0; 40],
    &[1; 40],
    &[
        0, 1, 0, 1, 0, 1, 0, 1, 0, 1, 0, 1, 0, 1, 0, 1, 0, 1, 0, 1, 0, 1, 0, 1, 0, 1, 0, 1, 0, 1,
    ],
    &[2, 255, 1, 1, 1, 0, 1, 1, 7],
];

// Whether each of the orders leads to the state to which none leads.
fn is_alike(alloc: Global, fitted: &Fitted, at: Pair) -> Result<bool, Fail> {
    let Some(first) = state_at(alloc, fitted, at, &[])? else {
        return Ok(false);
    };
    for &order in &ORDERS {
        match &state_at(alloc, fitted, at, order)? {
            Some(other) if same_state(&first, other) => {}
            _ => return Ok(false),
        }
    }
    Ok(true)
}

// The steps of both threads, the object's fields and its first word.
type Short = (u64, u64, Fields, u32);

fn short(state: &State) -> Option<Short> {
    match (state.threads(), state.objects()) {
        ([first, second], [object]) => Some((
            first.steps(),
            second.steps(),
            object.fields(),
            object.get(0),
        )),
        _ => None,
    }
}

fn short_at(alloc: Global, fitted: &Fitted, at: Pair) -> Result<Option<Short>, Fail> {
    let found = state_at(alloc, fitted, at, &[])?;
    Ok(found.as_ref().and_then(short))
}

const fn fields(version: u32, left: u32, inside: u8, writer: bool) -> Fields {
    Fields {
        version,
        left,
        inside,
        writer,
    }
}

// Whether each order leads to the same state at each of these cuts.
fn are_alike(alloc: Global, fitted: &Fitted, cuts: &[Pair]) -> Result<bool, Fail> {
    for at in cuts {
        if !is_alike(alloc, fitted, *at)? {
            return Ok(false);
        }
    }
    Ok(true)
}

// The same of the guest with its trace.
fn are_alike_in(
    alloc: Global,
    source: Source,
    trace: TraceRow,
    cuts: &[Pair],
) -> Result<bool, Fail> {
    let fitted = fitted(alloc, source, trace)?;
    are_alike(alloc, &fitted, cuts)
}

#[test]
fn each_order_leads_to_the_same_state(rt: HostRuntime) -> Result<(), Fail> {
    let cuts = [(18, 18), (3, 15), (0, 18), (2, 7)];
    assert!(rt; are_alike_in(rt.alloc(), TWO_COUNTERS, SECOND_FIRST, &cuts)?);
    Ok(())
}

#[test]
fn each_order_leads_to_the_same_answers(rt: HostRuntime) -> Result<(), Fail> {
    let cuts = [(18, 18), (9, 18), (6, 7), (2, 0)];
    assert!(rt; are_alike_in(rt.alloc(), NOTED_CLOCK, NOTED, &cuts)?);
    Ok(())
}

// A cut, and the state there, if it is consistent.
type Reached = (Pair, Option<Short>);

fn assert_reached<R: AllocGlobal + Abort>(
    rt: &R,
    fitted: &Fitted,
    cuts: &[Reached],
) -> Result<(), Fail> {
    for &(at, wanted) in cuts {
        assert_eq!(rt; short_at(rt.alloc(), fitted, at)?, wanted);
    }
    Ok(())
}

#[test]
fn the_second_writer_adds_to_the_first(rt: HostRuntime) -> Result<(), Fail> {
    let fitted = fitted(rt.alloc(), TWO_COUNTERS, SECOND_FIRST)?;
    let cuts = [
        ((18, 18), Some((18, 18, fields(2, 0, 0, false), 2))),
        ((3, 15), Some((3, 15, fields(1, 0, 0, true), 1))),
        ((3, 14), None),
    ];
    assert_reached(&rt, &fitted, &cuts)
}

#[test]
fn answers_and_readers_are_the_traces(rt: HostRuntime) -> Result<(), Fail> {
    let fitted = fitted(rt.alloc(), NOTED_CLOCK, NOTED)?;
    let cuts = [
        ((18, 18), Some((18, 18, fields(2, 0, 0, false), 70))),
        ((9, 13), Some((9, 13, fields(0, 2, 0, true), 80))),
        ((6, 9), Some((6, 9, fields(0, 1, 1, false), 0))),
        ((7, 10), None),
    ];
    assert_reached(&rt, &fitted, &cuts)
}

// The state at the cut, by real threads.
fn state_by_threads<R: Threads + time::Clock + Sync, G: Gate + Sync>(
    rt: &R,
    alloc: Global,
    fitted: &Fitted,
    at: Pair,
    gate: &G,
) -> Result<Option<State>, Fail> {
    let target = Cut::new(Vec::from_slice(alloc, &[at.0, at.1])?);
    by_threads(rt, alloc, fitted, &target, gate)
}

// The same of the guest with its trace.
fn replayed<R: Threads + time::Clock + Sync, G: Gate + Sync>(
    rt: &R,
    alloc: Global,
    source: Source,
    trace: TraceRow,
    at: Pair,
    gate: &G,
) -> Result<Option<State>, Fail> {
    let fitted = fitted(alloc, source, trace)?;
    state_by_threads(rt, alloc, &fitted, at, gate)
}

#[test]
fn two_readers_replay(rt: HostRuntime) -> Result<(), Fail> {
    let gate = Meeting::new();
    let found = replayed(&rt, rt.alloc(), TWO_READERS, BOTH_READ, (7, 7), &gate)?;
    assert_eq!(rt;
        found.as_ref().and_then(short),
        Some((7, 7, fields(0, 2, 0, false), 0))
    );
    assert!(rt; !gate.missed());
    Ok(())
}

// Of `HANDED_ON`: thread 0 writes object 0 after thread 1.
const HANDED_TO_0: TraceRow = TraceRow {
    objects: 3,
    budget: 1000,
    threads: &[
        Ran(12, 1, 0, &[Write(1, 0, 0), Write(0, 1, 0)]),
        Ran(12, 1, 2, &[Write(0, 0, 0), Write(2, 0, 0)]),
    ],
};

// How often each of three objects was written.
fn versions(state: &State) -> Option<[u32; 3]> {
    match state.objects() {
        [a, b, c] => Some([a.fields().version, b.fields().version, c.fields().version]),
        _ => None,
    }
}

// Both threads are in one round, which begins before the first step: thread 0 enters what thread 1 has written and left in
// it, while thread 1 waits in another object.
#[test]
fn judged_by_the_cut_that_is_reached(rt: HostRuntime) -> Result<(), Fail> {
    let gate = Handing::new();
    let found = replayed(&rt, rt.alloc(), HANDED_ON, HANDED_TO_0, (12, 12), &gate)?;
    assert_eq!(rt; found.as_ref().and_then(versions), Some([2, 1, 1]));
    assert!(rt; !gate.missed());
    Ok(())
}
