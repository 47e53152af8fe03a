//! Guests that try, recorded on real threads and replayed to their ends and outputs.

use crate::meeting::Yielding;
use crate::recordings::tried_by_threads;
use crate::replays::{by_threads, in_order, last};
use crate::states::same_state;
use crate::trying_guests::FOUR_TRYING;
use crate::worlds::Script;
use ir_fit::Fitted;
use ir_object::{Object, OpenGate};
use ir_record::{Output, Outputs};
use ir_replay::State;
use ir_thread::Thread;
use ir_trace::ThreadTrace;
use std::alloc::Global;
use std::process::Abort;
use std::sync::Wait;
use std::test::Fail;
use std::thread::Threads;
use std::time::Clock;

// Whether each thread ended as it was recorded.
fn have_ended(threads: &[Thread], recorded: &[ThreadTrace]) -> bool {
    for (thread, own) in threads.iter().zip(recorded) {
        if thread.ended() != Some(own.end()) {
            return false;
        }
    }
    threads.len() == recorded.len()
}

// Whether each thread printed what was recorded.
fn have_printed(threads: &[Thread], outputs: &[Output<Script>]) -> bool {
    for (thread, own) in threads.iter().zip(outputs) {
        if thread.output() != own.bytes.as_slice() {
            return false;
        }
    }
    threads.len() == outputs.len()
}

// The sum of the objects' first words.
fn sum(objects: &[Object]) -> u64 {
    let mut sum = 0u64;
    for object in objects {
        sum = sum.saturating_add(u64::from(object.get(0)));
    }
    sum
}

// Whether the threads ended and printed as they were recorded, and added one six times each.
fn is_as_recorded(state: &State, fitted: &Fitted, outputs: &Outputs<Script>) -> bool {
    have_ended(state.threads(), fitted.trace().threads())
        && have_printed(state.threads(), outputs.each.as_slice())
        && sum(state.objects()) == 24
}

// Whether both ways of replay lead there at the end.
fn replays_as_recorded<R: Threads + Clock + Sync>(
    rt: &R,
    alloc: Global,
    fitted: &Fitted,
    outputs: &Outputs<Script>,
) -> Result<bool, Fail> {
    let target = last(alloc, fitted)?;
    let one = by_threads(rt, alloc, fitted, &target, &OpenGate)?;
    let other = in_order(alloc, fitted, &target)?;
    match (&one, &other) {
        (Some(one), Some(other)) => {
            Ok(same_state(one, other) && is_as_recorded(one, fitted, outputs))
        }
        _ => Ok(false),
    }
}

fn assert_replayed<R: AllocGlobal + Threads + Clock + Sync + Abort>(
    rt: &R,
    fitted: &Fitted,
    outputs: &Outputs<Script>,
) -> Result<(), Fail> {
    assert!(rt; replays_as_recorded(rt, rt.alloc(), fitted, outputs)?);
    Ok(())
}

fn record_and_replay<R: AllocGlobal + Threads + Clock + Wait + Sync + Abort>(
    rt: &R,
    gate: &Yielding,
) -> Result<(), Fail> {
    let (fitted, outputs) = tried_by_threads(rt, rt.alloc(), FOUR_TRYING, gate)?;
    assert_replayed(rt, &fitted, &outputs)
}

#[test]
fn two_hundred_recordings_with_tries_replay(rt: HostRuntime) -> Result<(), Fail> {
    let gate = Yielding::new();
    for _ in 0..200 {
        record_and_replay(&rt, &gate)?;
    }
    Ok(())
}
