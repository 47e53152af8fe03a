//! Guests that call CLOCK, RANDOM and INPUT.

use crate::explore_tests::printed;
use crate::guests::guest;
use ir_explore::ExplorePlan;
use ir_graph::{Bounds, Setup};
use ir_outcomes::explore;
use ir_search::{Ended, Unobserved};
use ir_thread::Profile;
use std::test::Fail;

// Each thread asks for the time twice, and ends with the second answer as its code.
const ASKS_THE_TIME: &str = "
        .thread main
        .thread main
main:   addi a7, zero, 4
        ecall
        addi a7, zero, 4
        ecall
        addi a7, zero, 1
        ecall
";

// Each thread draws a random word, and ends with it as its code.
const DRAWS: &str = "
        .thread main
        .thread main
main:   addi a7, zero, 5
        ecall
        addi a7, zero, 1
        ecall
";

// The first thread reads a byte if word 0 of object 0 is set. Then it enters the object, leaves it, reads a byte, and ends with that as its code.
// The second thread sets the word. So two states of the first differ only in what is left of its input.
const READS: &str = "
        .objects 1
        .thread main
        .thread other
main:   addi a0, zero, 0
        addi a7, zero, 7
        ecall
        addi a0, zero, 0
        addi a1, zero, 0
        addi a7, zero, 10
        ecall
        addi s0, a0, 0
        addi a0, zero, 0
        addi a7, zero, 9
        ecall
        beq s0, zero, on
        addi a7, zero, 6
        ecall
on:     addi s0, zero, 0
        addi a0, zero, 0
        addi a7, zero, 7
        ecall
        addi a0, zero, 0
        addi a7, zero, 9
        ecall
        addi a7, zero, 6
        ecall
        addi a7, zero, 1
        ecall
other:  addi a0, zero, 0
        addi a7, zero, 8
        ecall
        addi a0, zero, 0
        addi a1, zero, 0
        addi a2, zero, 1
        addi a7, zero, 11
        ecall
        addi a0, zero, 0
        addi a7, zero, 9
        ecall
        addi a0, zero, 0
        addi a7, zero, 1
        ecall
";

const TIMES: &[u8] = b"outcome 1 switches 0 order 0x6,1x6
thread 0 end 1 code 1 out 0
thread 1 end 1 code 1 out 0
finished outcomes 1 states 1 hangs 0 clock counted
";

const WORDS: &[u8] = b"outcome 1 switches 0 order 0x4,1x4
thread 0 end 1 code 2442223337 out 0
thread 1 end 1 code 3046447000 out 0
finished outcomes 1 states 1 hangs 0
";

#[test]
fn each_thread_counts_its_own_calls_for_the_time(rt: HostRuntime) -> Result<(), Fail> {
    let plan = ExplorePlan::new(100, 1000, 100, Profile::One, 0, &[]);
    let (_, out, _) = printed(&rt, ASKS_THE_TIME, &plan)?;
    assert_eq!(rt; out.bytes.as_slice(), TIMES);
    Ok(())
}

#[test]
fn each_thread_draws_its_own_words(rt: HostRuntime) -> Result<(), Fail> {
    let plan = ExplorePlan::new(100, 1000, 100, Profile::One, 7, &[]);
    let (_, out, _) = printed(&rt, DRAWS, &plan)?;
    assert_eq!(rt; out.bytes.as_slice(), WORDS);
    Ok(())
}

#[test]
fn states_differ_in_the_input_that_is_left(rt: HostRuntime) -> Result<(), Fail> {
    let alloc = rt.alloc();
    let image = guest(alloc, READS)?;
    let setup = Setup {
        image: &image,
        profile: Profile::One,
        random: 0,
        input: b"AB",
    };
    let bounds = Bounds {
        nodes: 200,
        private: 1000,
        seconds: None,
        outcomes: None,
    };
    let Ok(found) = explore(alloc, &setup, bounds, 100, &Unobserved) else {
        return Err(Fail::from("no search"));
    };
    assert!(rt; found.ended == Ended::Finished);
    assert_eq!(rt; found.outcomes.len(), 2);
    Ok(())
}
