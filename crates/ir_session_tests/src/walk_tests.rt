//! A guest of three threads, walked from its end back to its start a step at a time, and forwards again.

use crate::streams::{ENDLESS, Page};
use ir_command::{Command, Move, Show};
use ir_debug::{Debugger, write_answer};
use ir_object::{Given, Hands, OpenGate};
use ir_tests::guests::THREE_COUNTERS;
use ir_tests::recordings::{BUDGET, fitted_in_order};
use std::process::Abort;
use std::test::Fail;
use std::thread::Threads;
use std::time::Clock;

const THREADS: u32 = 3;

// More turns than the threads have steps, though some of them find their thread at 0.
const TURNS: u32 = 400;

// A cut on the way, and what is shown there.
#[derive(Drop)]
struct Stop {
    at: [u64; 3],
    seen: Vec<u8>,
}

fn positions(debugger: &Debugger) -> [u64; 3] {
    match debugger.at().positions() {
        [first, second, third] => [*first, *second, *third],
        _ => [u64::MAX; 3],
    }
}

// Writes what a command shows. Whether it could.
fn is_shown<H: Hands>(hands: &H, debugger: &mut Debugger, show: Show, page: &mut Page) -> bool {
    let answer = debugger.command(hands, &Command::Show(show));
    write_answer(debugger, &answer, page).is_ok()
}

// Registers, log, output and next step of each thread, and the object. Nothing where it couldn't be written.
fn sight<H: Hands>(hands: &H, debugger: &mut Debugger) -> Vec<u8> {
    let alloc = hands.alloc();
    let mut page = Page::new(alloc, false, ENDLESS);
    for thread in 0..THREADS {
        for show in [
            Show::Registers { thread },
            Show::Log { thread },
            Show::Output { thread },
            Show::Next { thread },
            Show::Object { object: 0 },
        ] {
            if !is_shown(hands, debugger, show, &mut page) {
                return Vec::new(alloc);
            }
        }
    }
    page.bytes
}

// Goes back a step of a thread at a time, each in its turn, and gives all cuts on the way.
fn back_to_start<H: Hands>(hands: &H, debugger: &mut Debugger) -> Result<Vec<Stop>, Fail> {
    let mut stops = Vec::new(hands.alloc());
    for turn in 0..TURNS {
        let at = positions(debugger);
        let seen = sight(hands, debugger);
        stops.push(Stop { at, seen })?;
        let back = Move::Back {
            thread: turn % THREADS,
            count: 1,
        };
        debugger.command(hands, &Command::Move(back));
    }
    Ok(stops)
}

// Whether the same is shown where the threads come to the positions from below.
fn is_seen_again<H: Hands>(hands: &H, debugger: &mut Debugger, stop: &Stop) -> bool {
    for thread in 0..THREADS {
        let position = stop.at[thread as usize];
        let goto = Move::Goto { thread, position };
        debugger.command(hands, &Command::Move(goto));
    }
    let seen = sight(hands, debugger);
    positions(debugger) == stop.at && seen.as_slice() == stop.seen.as_slice() && !seen.is_empty()
}

// Goes to the stops again, the last one first.
fn assert_seen_again<R: AllocGlobal + Threads + Clock + Sync + Abort>(
    rt: &R,
    debugger: &mut Debugger,
    stops: &[Stop],
) {
    let hands = Given::new(rt, rt.alloc(), &OpenGate);
    for i in 0..stops.len() {
        let stop = &stops[stops.len() - 1 - i];
        assert!(rt; is_seen_again(&hands, debugger, stop), "{i}");
    }
}

// From the end to the start and back.
fn assert_same<R: AllocGlobal + Threads + Clock + Sync + Abort>(
    rt: &R,
    debugger: &mut Debugger,
) -> Result<(), Fail> {
    let hands = Given::new(rt, rt.alloc(), &OpenGate);
    debugger.command(&hands, &Command::Move(Move::End));
    assert_eq!(rt; positions(debugger), [18, 18, 18]);
    let stops = back_to_start(&hands, debugger)?;
    assert_eq!(rt; positions(debugger), [0, 0, 0]);
    assert_seen_again(rt, debugger, stops.as_slice());
    assert_eq!(rt; positions(debugger), [18, 18, 18]);
    Ok(())
}

#[test]
fn the_same_is_shown_both_ways(rt: HostRuntime) -> Result<(), Fail> {
    let order = [2, 2, 2, 2, 0, 1, 0, 1, 1, 2, 0, 0];
    let fitted = fitted_in_order(rt.alloc(), THREE_COUNTERS, &order, BUDGET)?;
    let mut debugger = Debugger::open(rt.alloc(), fitted)?;
    assert_same(&rt, &mut debugger)
}
