//! What is reported to a gate, in a recording by threads and in its replay: each entry once, and each leave.

use crate::guests::{BROKEN_INSIDE, Source, TWO_COUNTERS};
use crate::meeting::{Counting, Refusing, Told};
use crate::recordings::tried_by_threads;
use crate::replays::{by_threads, last};
use crate::trying_guests::{TRYING, TRYING_BESIDE};
use ir_object::{Gate, OpenGate};
use std::sync::Wait;
use std::test::Fail;
use std::thread::Threads;
use std::time::Clock;

// What is reported to a gate while the guest is recorded on real threads, which this one holds up, and while its trace is replayed.
fn told<R: AllocGlobal + Threads + Wait + Clock + Sync, G: Gate + Sync>(
    rt: &R,
    source: Source,
    gate: &G,
) -> Result<(Option<Told>, Option<Told>), Fail> {
    let alloc = rt.alloc();
    let recording = Counting::new(gate);
    let (fitted, _outputs) = tried_by_threads(rt, alloc, source, &recording)?;
    let replaying = Counting::new(&OpenGate);
    let target = last(alloc, &fitted)?;
    let _state = by_threads(rt, alloc, &fitted, &target, &replaying)?;
    Ok((recording.told(), replaying.told()))
}

// The same both times.
fn both(told: Told) -> (Option<Told>, Option<Told>) {
    (Some(told), Some(told))
}

#[test]
fn each_entry_and_each_leave_is_told(rt: HostRuntime) -> Result<(), Fail> {
    let seen = told(&rt, TWO_COUNTERS, &OpenGate)?;
    assert_eq!(rt; seen, both([(1, 1), (1, 1)]));
    Ok(())
}

// What a thread holds at its end it leaves then.
#[test]
fn a_release_is_told(rt: HostRuntime) -> Result<(), Fail> {
    let seen = told(&rt, BROKEN_INSIDE, &OpenGate)?;
    assert_eq!(rt; seen, both([(1, 1), (0, 0)]));
    Ok(())
}

#[test]
fn a_try_that_enters_is_told(rt: HostRuntime) -> Result<(), Fail> {
    let seen = told(&rt, TRYING, &OpenGate)?;
    assert_eq!(rt; seen, both([(1, 1), (0, 0)]));
    Ok(())
}

// Thread 1 tries while thread 0 is inside.
#[test]
fn a_refused_try_is_not_told(rt: HostRuntime) -> Result<(), Fail> {
    let gate = Refusing::new();
    let seen = told(&rt, TRYING_BESIDE, &gate)?;
    assert!(rt; !gate.missed());
    assert_eq!(rt; seen, both([(1, 1), (0, 0)]));
    Ok(())
}
