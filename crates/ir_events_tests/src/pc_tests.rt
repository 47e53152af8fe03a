//! Guests whose events are at known addresses of their code, which begins at 0x10000.

use ir_events::{EventPcs, Logged, event_line, pcs};
use ir_fit::Fitted;
use ir_log::Event;
use ir_tests::guests::{CROSSING, DOUBLED, EACH_EVENT, NOTED_CLOCK, TWO_COUNTERS};
use ir_tests::recordings::{BUDGET, fitted_in_order, tried_in_order};
use ir_tests::replays::fitted;
use ir_tests::traces::{ENDED_BY_144, FIRST_FIRST, SECOND_FIRST};
use std::process::Abort;
use std::test::Fail;

// Asks the clock three times, by one instruction.
const ASK_THRICE: &[&str] = &[
    "
        addi    a7, zero, 4             # CLOCK
        addi    t0, zero, 3
again:  ecall
        addi    t0, t0, -1
        bne     t0, zero, again
        addi    a7, zero, 1             # END
        ecall
",
];

// Both threads try to enter object 0 until they are inside, and stop there.
const TWO_TRIES: &[&str] = &[
    "
        .objects 1
        .thread main
        .thread main
main:   addi    a7, zero, 13            # TRY_WRITE
again:  addi    a0, zero, 0
        ecall
        beq     a0, zero, again
        ebreak
",
];

// Whether these are the pcs of each thread's events.
fn are_pcs(found: &EventPcs, expected: &[&[u32]]) -> bool {
    if found.len() != expected.len() {
        return false;
    }
    for t in 0..found.len() {
        if found.at(t) != expected[t] {
            return false;
        }
    }
    true
}

fn assert_pcs<R: AllocGlobal + Abort>(
    rt: &R,
    fitted: &Fitted,
    expected: &[&[u32]],
) -> Result<(), Fail> {
    let found = pcs(rt.alloc(), fitted)?;
    assert!(rt; are_pcs(&found, expected));
    Ok(())
}

#[test]
fn each_kind_of_event_has_its_own(rt: HostRuntime) -> Result<(), Fail> {
    let fitted = fitted_in_order(rt.alloc(), EACH_EVENT, &[], BUDGET)?;
    assert_pcs(
        &rt,
        &fitted,
        &[&[0x10004, 0x1000c, 0x10014, 0x10020, 0x1002c]],
    )
}

#[test]
fn threads_that_wait_for_each_other_are_listed_apart(rt: HostRuntime) -> Result<(), Fail> {
    let order = [1, 1, 1, 0, 0, 0, 1, 1, 1, 1, 1];
    let fitted = fitted_in_order(rt.alloc(), CROSSING, &order, BUDGET)?;
    assert_pcs(&rt, &fitted, &[&[0x10008, 0x1001c], &[0x10034, 0x10048]])
}

#[test]
fn one_instruction_may_log_several_events(rt: HostRuntime) -> Result<(), Fail> {
    let fitted = fitted_in_order(rt.alloc(), ASK_THRICE, &[], BUDGET)?;
    assert_pcs(&rt, &fitted, &[&[0x10008, 0x10008, 0x10008]])
}

#[test]
fn refused_tries_are_events(rt: HostRuntime) -> Result<(), Fail> {
    let fitted = tried_in_order(
        rt.alloc(),
        TWO_TRIES,
        &[1, 1, 1, 0, 0, 0, 0, 0, 0, 0, 1, 1, 1, 1],
        BUDGET,
    )?;
    assert_pcs(&rt, &fitted, &[&[0x10008, 0x10008, 0x10008], &[0x10008]])
}

#[test]
fn the_order_of_the_threads_does_not_matter(rt: HostRuntime) -> Result<(), Fail> {
    for trace in [FIRST_FIRST, SECOND_FIRST] {
        let fitted = fitted(rt.alloc(), TWO_COUNTERS, trace)?;
        assert_pcs(&rt, &fitted, &[&[0x10008], &[0x10008]])?;
    }
    let noted: &[u32] = &[0x10004, 0x10014, 0x10024];
    let fitted = fitted_in_order(rt.alloc(), NOTED_CLOCK, &[0, 1, 0, 1, 1], BUDGET)?;
    assert_pcs(&rt, &fitted, &[noted, noted])
}

#[test]
fn a_thread_may_have_no_event(rt: HostRuntime) -> Result<(), Fail> {
    let fitted = fitted(rt.alloc(), DOUBLED, ENDED_BY_144)?;
    assert_pcs(&rt, &fitted, &[&[]])
}

#[test]
fn a_line_names_the_place(rt: HostRuntime) -> Result<(), Fail> {
    let logged = Logged {
        thread: 1,
        number: 20,
        step: 300,
        pc: 0x1002c,
        event: Event::Write {
            object: 3,
            version: 40,
            readers: 5,
        },
    };
    let line = event_line(rt.alloc(), &logged, b" <transfer+8>")?;
    let wanted =
        b"thread 1 event 20 step 300 pc 0001002c <transfer+8> write 3 version 40 readers 5\n";
    assert!(&rt; line.as_slice() == wanted.as_slice());
    Ok(())
}
