//! Guests recorded on real threads.

use crate::guests::{Source, TWO_READERS};
use crate::meeting::Meeting;
use crate::recorded_guests::{ADDING, INPUTS, STAYING, WAITING};
use crate::recordings::{BUDGET, Recorded, by_threads};
use crate::sources::image_of;
use crate::traces::{BOTH_READ, TraceRow, is_trace};
use crate::worlds::Script;
use ir_log::Event;
use ir_object::{Gate, OpenGate};
use ir_record::{Outputs, RecordErr};
use ir_trace::{ThreadTrace, Trace};
use std::alloc::Global;
use std::sync::Wait;
use std::test::Fail;
use std::thread::Threads;

// How many entries for writing there are in a thread's log, and the sum of their versions.
fn thread_writes(thread: &ThreadTrace) -> (u64, u64) {
    let mut count = 0u64;
    let mut sum = 0u64;
    for event in thread.log().events() {
        if let Event::Write { version, .. } = *event {
            count = count.saturating_add(1);
            sum = sum.saturating_add(u64::from(version));
        }
    }
    (count, sum)
}

// The same in all threads' logs.
fn writes(trace: &Trace) -> (u64, u64) {
    let mut count = 0u64;
    let mut sum = 0u64;
    for thread in trace.threads() {
        let (own_count, own_sum) = thread_writes(thread);
        count = count.saturating_add(own_count);
        sum = sum.saturating_add(own_sum);
    }
    (count, sum)
}

// The greatest code with which a thread ends itself; none where one ends otherwise.
fn greatest_code(trace: &Trace) -> Option<u32> {
    let mut most = 0;
    for thread in trace.threads() {
        if thread.end().number() != 1 {
            return None;
        }
        most = most.max(thread.end().code());
    }
    Some(most)
}

// Of a recording how many outputs there are, the entries for writing, and the greatest code.
type Added = (usize, (u64, u64), Option<u32>);

// Records a guest that asks for nothing.
fn recorded<R: Threads + Wait + Sync, G: Gate + Sync>(
    rt: &R,
    alloc: Global,
    source: Source,
    gate: &G,
) -> Result<(Trace, Outputs<Script>), Fail> {
    let image = image_of(alloc, source)?;
    Ok(by_threads(rt, alloc, &image, gate, &[])?)
}

fn added<R: Threads + Wait + Sync>(rt: &R, alloc: Global) -> Result<Added, Fail> {
    let (trace, outputs) = recorded(rt, alloc, ADDING, &OpenGate)?;
    Ok((outputs.each.len(), writes(&trace), greatest_code(&trace)))
}

// Eight threads add to one word: each version is written once.
#[test]
fn eight_threads_write_in_turn(rt: HostRuntime) -> Result<(), Fail> {
    let added = added(&rt, rt.alloc())?;
    assert_eq!(rt; added, (8, (1600, 1600 * 1599 / 2), Some(1600)));
    Ok(())
}

// Both are inside at one time: the threads run side by side.
#[test]
fn two_readers_record(rt: HostRuntime) -> Result<(), Fail> {
    let gate = Meeting::new();
    let (trace, _outputs) = recorded(&rt, rt.alloc(), TWO_READERS, &gate)?;
    assert!(rt; !gate.missed());
    let wanted = TraceRow {
        budget: BUDGET,
        ..BOTH_READ
    };
    assert!(rt; is_trace(rt.alloc(), &trace, wanted)?);
    Ok(())
}

// The thread whose world failed, and how many answers each of at most four worlds gave.
type Failed = (u8, [Option<usize>; 4]);

// How many answers a world gave, if there is one.
fn answered(worlds: &[Script], number: usize) -> Option<usize> {
    Some(worlds.get(number)?.answered())
}

// The same of each.
fn all_answered(worlds: &[Script]) -> [Option<usize>; 4] {
    [
        answered(worlds, 0),
        answered(worlds, 1),
        answered(worlds, 2),
        answered(worlds, 3),
    ]
}

fn failed_of(recorded: Recorded) -> Result<Option<Failed>, Fail> {
    match recorded {
        Err(RecordErr::World { thread, worlds }) => {
            Ok(Some((thread, all_answered(worlds.as_slice()))))
        }
        Ok(_) => Ok(None),
        Err(e) => Err(Fail::from(e)),
    }
}

// Records a guest with a world that fails.
fn failed<R: Threads + Wait + Sync, G: Gate + Sync>(
    rt: &R,
    alloc: Global,
    source: Source,
    gate: &G,
    answers: &[u32],
) -> Result<Option<Failed>, Fail> {
    let image = image_of(alloc, source)?;
    failed_of(by_threads(rt, alloc, &image, gate, answers))
}

// Thread 1 is in object 1 before thread 0 asks for it, and its world fails at its second answer. It leaves the object, and
// thread 0 continues to its end.
#[test]
fn a_thread_whose_world_fails_holds_up_no_other(rt: HostRuntime) -> Result<(), Fail> {
    let gate = Meeting::new();
    let found = failed(&rt, rt.alloc(), WAITING, &gate, &[1000, 7])?;
    assert!(rt; !gate.missed());
    assert_eq!(rt; found, Some((1, [Some(2), Some(1), None, None])));
    Ok(())
}

#[test]
fn the_lowest_thread_whose_world_failed_is_named(rt: HostRuntime) -> Result<(), Fail> {
    let found = failed(&rt, rt.alloc(), INPUTS, &OpenGate, &[1000])?;
    assert_eq!(rt; found, Some((1, [Some(1), Some(0), Some(0), None])));
    Ok(())
}

// Whether each thread's budget ended it, two steps later.
fn are_ended(trace: &Trace) -> bool {
    for thread in trace.threads() {
        if thread.end().number() != 13 || thread.steps() != BUDGET + 2 {
            return false;
        }
    }
    true
}

// Each is ended by its budget and leaves the object, so that the next gets in.
#[test]
fn the_budget_ends_each_thread(rt: HostRuntime) -> Result<(), Fail> {
    let (trace, _outputs) = recorded(&rt, rt.alloc(), STAYING, &OpenGate)?;
    assert_eq!(rt; writes(&trace), (3, 3));
    assert!(rt; are_ended(&trace));
    Ok(())
}
