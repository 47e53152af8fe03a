//! Guests recorded on real threads and in orders, judged, and replayed in order and by real threads.

use crate::guests::{COUNTER, GUESTS, Guest, SUMS};
use crate::recordings::{BUDGET, fitted_by_threads, fitted_in_order};
use crate::replays::{in_order, is_same, last, least_at};
use crate::worlds::Script;
use ir_fit::Fitted;
use ir_object::Fields;
use ir_record::{Output, Outputs};
use ir_thread::Thread;
use std::alloc::Global;
use std::process::Abort;
use std::sync::Wait;
use std::test::Fail;
use std::thread::Threads;
use std::time::Clock;

// The fields and the first word of the one object at the end.
fn counted(alloc: Global, fitted: &Fitted) -> Result<Option<(Fields, u32)>, Fail> {
    let Some(state) = in_order(alloc, fitted, &last(alloc, fitted)?)? else {
        return Ok(None);
    };
    match state.objects() {
        [object] => Ok(Some((object.fields(), object.get(0)))),
        _ => Ok(None),
    }
}

// Whether both ways of replay lead to one state at the least cut with thread t at the position.
fn replays_alike_at<R: Threads + Clock + Sync>(
    rt: &R,
    alloc: Global,
    fitted: &Fitted,
    t: usize,
    position: u64,
) -> Result<bool, Fail> {
    match least_at(alloc, fitted, t, position)? {
        Some(target) => is_same(rt, alloc, fitted, &target),
        None => Ok(false),
    }
}

// The object when all eight have written it and left.
const WRITTEN: Fields = Fields {
    version: 8,
    left: 0,
    inside: 0,
    writer: false,
};

fn assert_counted<R: AllocGlobal + Threads + Clock + Sync + Abort>(
    rt: &R,
    fitted: &Fitted,
) -> Result<(), Fail> {
    assert_eq!(rt; counted(rt.alloc(), fitted)?, Some((WRITTEN, 8)));
    for position in 0..19 {
        assert!(rt; replays_alike_at(rt, rt.alloc(), fitted, 0, position)?);
    }
    Ok(())
}

#[test]
fn eight_threads_count_to_eight(rt: HostRuntime) -> Result<(), Fail> {
    let (fitted, outputs) = fitted_by_threads(&rt, rt.alloc(), COUNTER)?;
    assert_eq!(rt; outputs.each.len(), 8);
    assert_counted(&rt, &fitted)
}

// Whether a thread printed what was recorded, which is five lines.
fn printed(thread: &Thread, output: &Output<Script>) -> bool {
    let lines = output.bytes.iter().filter(|byte| **byte == b'\n').count();
    thread.output() == output.bytes.as_slice() && lines == 5
}

// Whether all threads did so, which are as many as the outputs.
fn all_printed(threads: &[Thread], outputs: &Outputs<Script>) -> bool {
    for (thread, output) in threads.iter().zip(&outputs.each) {
        if !printed(thread, output) {
            return false;
        }
    }
    threads.len() == outputs.each.len()
}

// Whether a replay to the end printed what the four recorded threads printed.
fn prints_the_same(
    alloc: Global,
    fitted: &Fitted,
    outputs: &Outputs<Script>,
) -> Result<bool, Fail> {
    match in_order(alloc, fitted, &last(alloc, fitted)?)? {
        Some(state) => Ok(all_printed(state.threads(), outputs) && outputs.each.len() == 4),
        None => Ok(false),
    }
}

// The position of a thread some sixths on its way.
fn on_its_way(fitted: &Fitted, t: usize, sixths: u64) -> Option<u64> {
    let thread = fitted.trace().threads().get(t)?;
    Some((thread.steps() / 6).saturating_mul(sixths))
}

// A thread, and how many sixths it is on its way.
const ON_THEIR_WAYS: [(usize, u64); 5] = [(0, 1), (1, 2), (2, 3), (3, 4), (0, 5)];

// Whether both ways of replay lead to one state at five cuts, each the least with a thread so far.
fn replays_alike<R: Threads + Clock + Sync>(
    rt: &R,
    alloc: Global,
    fitted: &Fitted,
) -> Result<bool, Fail> {
    for &(t, sixths) in &ON_THEIR_WAYS {
        let Some(position) = on_its_way(fitted, t, sixths) else {
            return Ok(false);
        };
        if !replays_alike_at(rt, alloc, fitted, t, position)? {
            return Ok(false);
        }
    }
    Ok(true)
}

fn assert_replayed<R: AllocGlobal + Threads + Clock + Sync + Abort>(
    rt: &R,
    fitted: &Fitted,
    outputs: &Outputs<Script>,
) -> Result<(), Fail> {
    assert!(rt; prints_the_same(rt.alloc(), fitted, outputs)?);
    assert!(rt; replays_alike(rt, rt.alloc(), fitted)?);
    Ok(())
}

fn record_and_replay<R: AllocGlobal + Threads + Clock + Wait + Sync + Abort>(
    rt: &R,
) -> Result<(), Fail> {
    let (fitted, outputs) = fitted_by_threads(rt, rt.alloc(), SUMS)?;
    assert_replayed(rt, &fitted, &outputs)
}

#[test]
fn two_hundred_recordings_replay(rt: HostRuntime) -> Result<(), Fail> {
    for _ in 0..200 {
        record_and_replay(&rt)?;
    }
    Ok(())
}

// Whether both ways of replay lead to one state at the end.
fn ends_alike<R: Threads + Clock + Sync>(
    rt: &R,
    alloc: Global,
    fitted: &Fitted,
) -> Result<bool, Fail> {
    is_same(rt, alloc, fitted, &last(alloc, fitted)?)
}

const ORDERS: [&[u8]; 3] = [&[], &[0, 1, 0, 1], &[1, 1, 1, 0, 2, 7]];

// Whether a guest's recording in an order replays.
fn replays_in_order<R: Threads + Clock + Sync>(
    rt: &R,
    alloc: Global,
    guest: Guest,
    order: &[u8],
) -> Result<bool, Fail> {
    let fitted = fitted_in_order(alloc, guest.source, order, BUDGET)?;
    ends_alike(rt, alloc, &fitted)
}

// Whether its recordings in each order do.
fn replays_in_each_order<R: Threads + Clock + Sync>(
    rt: &R,
    alloc: Global,
    guest: Guest,
) -> Result<bool, Fail> {
    for &order in &ORDERS {
        if !replays_in_order(rt, alloc, guest, order)? {
            return Ok(false);
        }
    }
    Ok(true)
}

// Whether a recording of it on real threads does.
fn replays_by_threads<R: Threads + Clock + Wait + Sync>(
    rt: &R,
    alloc: Global,
    guest: Guest,
) -> Result<bool, Fail> {
    let (fitted, _outputs) = fitted_by_threads(rt, alloc, guest.source)?;
    ends_alike(rt, alloc, &fitted)
}

#[test]
fn a_recording_of_each_guest_fits_and_replays(rt: HostRuntime) -> Result<(), Fail> {
    for &guest in &GUESTS {
        assert!(rt;
            replays_by_threads(&rt, rt.alloc(), guest)?,
            "{}",
            guest.name
        );
        assert!(rt;
            replays_in_each_order(&rt, rt.alloc(), guest)?,
            "{}",
            guest.name
        );
    }
    Ok(())
}
