//! What the examples print and leave in their objects.

use crate::examples::{
    CALLS, COUNTER, HELLO, HELPING, LOST_UPDATE, OVERWRITTEN, SPINNING, SUM, TWO_LOCKS,
};
use crate::recordings::{BUDGET, fitted_in_order, tried_by_threads, tried_in_order};
use crate::replays::{in_order, last};
use crate::sources::image_bytes;
use crate::worlds::Script;
use ir_fit::Fitted;
use ir_object::Gate;
use ir_record::Output;
use ir_replay::State;
use ir_runs::Access;
use ir_thread::{End, Profile};
use std::alloc::Global;
use std::sync::Wait;
use std::test::Fail;
use std::thread::{Threads, yield_now};

// An example, the length of its image, how its first thread ends, what that prints, and the first word of each object
// after a recording in rounds.
type Example = (&'static str, usize, End, &'static str, &'static [u32]);

const EXAMPLES: [Example; 7] = [
    (HELLO, 84, End::Exit(0), "Hello, world!\n", &[]),
    (SUM, 126, End::Exit(42), "42\n", &[]),
    (CALLS, 114, End::Exit(31), "31\n", &[]),
    (COUNTER, 134, End::Exit(0), "", &[4]),
    (LOST_UPDATE, 154, End::Exit(0), "", &[1]),
    (TWO_LOCKS, 202, End::Exit(0), "", &[75, 75]),
    (OVERWRITTEN, 102, End::Exit(0), "4\n", &[]),
];

// Those of the second profile.
const TRYING: [Example; 2] = [
    (HELPING, 250, End::Exit(0), "12\n", &[0, 0]),
    (SPINNING, 174, End::Exit(0), "", &[20]),
];

// Whether the objects' first words are these.
fn has_words(state: &State, words: &[u32]) -> bool {
    for (object, word) in state.objects().iter().zip(words) {
        if object.get(0) != *word {
            return false;
        }
    }
    state.objects().len() == words.len()
}

// Whether the first thread ended and printed so, and the objects were left so.
fn is_left(state: &State, example: Example) -> bool {
    let (_source, _length, end, printed, words) = example;
    let Some(first) = state.threads().first() else {
        return false;
    };
    first.ended() == Some(end) && first.output() == printed.as_bytes() && has_words(state, words)
}

// Whether that is so at the end of the trace.
fn is_left_at_end(alloc: Global, fitted: &Fitted, example: Example) -> Result<bool, Fail> {
    match in_order(alloc, fitted, &last(alloc, fitted)?)? {
        Some(state) => Ok(is_left(&state, example)),
        None => Ok(false),
    }
}

// A recording in rounds.
fn recorded(alloc: Global, source: &str, profile: Profile) -> Result<Fitted, Fail> {
    match profile {
        Profile::One => fitted_in_order(alloc, &[source], &[], BUDGET),
        Profile::Two => tried_in_order(alloc, &[source], &[], BUDGET),
    }
}

// Whether it is so at the end of it.
fn does(alloc: Global, example: Example, profile: Profile) -> Result<bool, Fail> {
    let (source, _length, _end, _printed, _words) = example;
    let fitted = recorded(alloc, source, profile)?;
    is_left_at_end(alloc, &fitted, example)
}

// Whether the image has its length, and the guest does what it says.
fn is_example(alloc: Global, example: Example, profile: Profile) -> Result<bool, Fail> {
    let (source, length, _end, _printed, _words) = example;
    Ok(image_bytes(alloc, &[source])?.len() == length && does(alloc, example, profile)?)
}

#[test]
fn the_examples_do_what_they_say(rt: HostRuntime) -> Result<(), Fail> {
    for &example in &EXAMPLES {
        assert!(rt;
            is_example(rt.alloc(), example, Profile::One)?,
            "{}",
            example.0
        );
    }
    Ok(())
}

#[test]
fn the_examples_that_try_do_what_they_say(rt: HostRuntime) -> Result<(), Fail> {
    for &example in &TRYING {
        assert!(rt;
            is_example(rt.alloc(), example, Profile::Two)?,
            "{}",
            example.0
        );
    }
    Ok(())
}

// The sum of the numbers in lines of digits.
fn sum_of_lines(lines: &[u8]) -> u64 {
    let mut sum = 0u64;
    let mut number = 0u64;
    for &byte in lines {
        if byte == b'\n' {
            sum = sum.saturating_add(number);
            number = 0;
        } else {
            let digit = u64::from(byte.saturating_sub(b'0'));
            number = number.saturating_mul(10).saturating_add(digit);
        }
    }
    sum
}

// That of all that was printed.
fn sum_of_outputs(outputs: &[Output<Script>]) -> u64 {
    let mut sum = 0u64;
    for output in outputs {
        sum = sum.saturating_add(sum_of_lines(output.bytes.as_slice()));
    }
    sum
}

// Whether the objects are left so at the end of the trace.
fn are_left_at_end(alloc: Global, fitted: &Fitted, words: &[u32]) -> Result<bool, Fail> {
    match in_order(alloc, fitted, &last(alloc, fitted)?)? {
        Some(state) => Ok(has_words(&state, words)),
        None => Ok(false),
    }
}

// Lets other threads run after each entry and before each call. One that spins doesn't then use up its turns while the one
// inside waits for its own. It is refused seldom enough for its log, however busy the machine is.
struct YieldingAtCalls;

impl Gate for YieldingAtCalls {
    fn entered(&self, _thread: u8, _object: u8, _access: Access) {
        yield_now();
    }

    fn leaving(&self, _thread: u8, _object: u8, _access: Access) {}

    fn stepped(&self, _thread: u8, _steps: u64) {
        yield_now();
    }
}

// The sum of what is printed by threads that run side by side, and whether they left the objects so.
fn tried<R: Threads + Wait + Sync>(
    rt: &R,
    alloc: Global,
    example: Example,
) -> Result<(u64, bool), Fail> {
    let (source, _length, _end, _printed, words) = example;
    let (fitted, outputs) = tried_by_threads(rt, alloc, &[source], &YieldingAtCalls)?;
    let is_left = are_left_at_end(alloc, &fitted, words)?;
    Ok((sum_of_outputs(outputs.each.as_slice()), is_left))
}

// What is printed is the same however the threads ran.
#[test]
fn the_examples_that_try_do_so_by_threads(rt: HostRuntime) -> Result<(), Fail> {
    for _ in 0..5 {
        assert_eq!(rt; tried(&rt, rt.alloc(), TRYING[0])?, (24, true));
        assert_eq!(rt; tried(&rt, rt.alloc(), TRYING[1])?, (20, true));
    }
    Ok(())
}
