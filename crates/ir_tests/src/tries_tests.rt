//! Tries, recorded in an order and on real threads.

use crate::meeting::Refusing;
use crate::record_tests::{Run, first};
use crate::recordings::{fitted_in_order, tried_by_threads, tried_in_order, tried_with_refusals};
use crate::replays::{is_same, last};
use crate::trying_guests::{TRYING, TRYING_BESIDE};
use ir_fit::Fitted;
use ir_log::Event;
use ir_object::OpenGate;
use ir_record::Item;
use ir_thread::End;
use ir_trace::{Trace, write_trace};
use std::alloc::Global;
use std::process::Abort;
use std::sync::Wait;
use std::test::Fail;
use std::thread::Threads;
use std::time::Clock;

// The trace of `TRYING` where it entered.
const ENTERED: &[u8] =
    b"IRT2\x01\x01\0\0\xe8\x03\0\0\0\0\0\0\x06\0\0\0\0\0\0\0\x01\x01\0\0\0\x01\0\0\0\x05\0\0\0\0\0\0\0\0\0";

// The first thread's run, and whether the trace is written so.
fn seen(alloc: Global, trace: &Trace, bytes: &[u8]) -> Result<(Option<Run>, bool), Fail> {
    let written = write_trace(alloc, trace)?;
    Ok((first(trace), written.as_slice() == bytes))
}

fn tried(alloc: Global) -> Result<(Option<Run>, bool), Fail> {
    let fitted = tried_in_order(alloc, TRYING, &[0], 1000)?;
    seen(alloc, fitted.trace(), ENTERED)
}

#[test]
fn a_try_alone_enters(rt: HostRuntime) -> Result<(), Fail> {
    assert_eq!(rt; tried(rt.alloc())?, (Some((1, 1, 6, 1)), true));
    Ok(())
}

// The same where its try was refused.
const REFUSED_ALONE: &[u8] =
    b"IRT2\x01\x01\0\0\xe8\x03\0\0\0\0\0\0\x05\0\0\0\0\0\0\0\x01\0\0\0\0\x01\0\0\0\x06\0";

// Turns of thread 0 in which tries are refused: its two steps before a try, the try, and one that is none.
const FOUR_REFUSED: [Item; 1] = [Item {
    thread: 0,
    count: 4,
    refused: true,
}];

fn refused_alone(alloc: Global, items: &[Item]) -> Result<(Option<Run>, bool), Fail> {
    let fitted = tried_with_refusals(alloc, TRYING, items, 1000)?;
    seen(alloc, fitted.trace(), REFUSED_ALONE)
}

#[test]
fn a_turn_refuses_a_try_that_may_enter(rt: HostRuntime) -> Result<(), Fail> {
    let (run, is_so) = refused_alone(rt.alloc(), &FOUR_REFUSED)?;
    assert_eq!(rt; run, Some((1, 0, 5, 1)));
    assert!(rt; is_so);
    Ok(())
}

fn tried_in_the_first_profile(alloc: Global) -> Result<Option<Run>, Fail> {
    let fitted = fitted_in_order(alloc, TRYING, &[0], 1000)?;
    Ok(first(fitted.trace()))
}

#[test]
fn the_first_profile_has_no_tries(rt: HostRuntime) -> Result<(), Fail> {
    let run = tried_in_the_first_profile(rt.alloc())?;
    assert_eq!(rt; run, Some((8, 0, 3, 0)));
    Ok(())
}

fn tried_alone<R: Threads + Wait + Sync>(rt: &R, alloc: Global) -> Result<Option<Run>, Fail> {
    let (fitted, _outputs) = tried_by_threads(rt, alloc, TRYING, &OpenGate)?;
    Ok(first(fitted.trace()))
}

#[test]
fn a_try_alone_enters_by_threads(rt: HostRuntime) -> Result<(), Fail> {
    let run = tried_alone(&rt, rt.alloc())?;
    assert_eq!(rt; run, Some((1, 1, 6, 1)));
    Ok(())
}

// How thread 1 ends, and what it logs first.
type Second = (End, Option<Event>);

fn second(trace: &Trace) -> Option<Second> {
    let thread = trace.threads().get(1)?;
    Some((thread.end(), thread.log().events().first().copied()))
}

const REFUSED: Option<Second> = Some((End::Exit(0), Some(Event::Try { object: 0 })));

// Thread 1 was refused, and both ways of replay lead to one state at the end.
fn assert_refused<R: AllocGlobal + Threads + Clock + Sync + Abort>(
    rt: &R,
    fitted: &Fitted,
) -> Result<(), Fail> {
    assert_eq!(rt; second(fitted.trace()), REFUSED);
    let target = last(rt.alloc(), fitted)?;
    assert!(rt; is_same(rt, rt.alloc(), fitted, &target)?);
    Ok(())
}

#[test]
fn a_try_beside_a_writer_is_refused(rt: HostRuntime) -> Result<(), Fail> {
    let fitted = tried_in_order(rt.alloc(), TRYING_BESIDE, &[0, 0, 0, 1, 1, 1], 1000)?;
    assert_refused(&rt, &fitted)
}

// The threads run side by side: the writer is held inside until the other was answered.
#[test]
fn a_try_beside_a_writer_is_refused_by_threads(rt: HostRuntime) -> Result<(), Fail> {
    let gate = Refusing::new();
    let (fitted, _outputs) = tried_by_threads(&rt, rt.alloc(), TRYING_BESIDE, &gate)?;
    assert!(rt; !gate.missed());
    assert_refused(&rt, &fitted)
}
