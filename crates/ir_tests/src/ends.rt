//! The end of a thread that fails one condition, or several at the same time.

use crate::recordings::fitted_in_order;
use ir_thread::End;
use std::alloc::Global;
use std::test::Fail;

const BUDGET: u64 = 10_000_000;

// Fills the log with the clock's answers.
const LOG_FULL: &str = "
        li      s0, 1048576
fill:   addi    a7, zero, 4             # CLOCK
        ecall
        addi    s0, s0, -1
        bne     s0, zero, fill
";

// The entry of object 1 is the log's last event.
const LOG_FULL_WITH_AN_ENTRY: &str = "
        li      s0, 1048575
fill:   addi    a7, zero, 4             # CLOCK
        ecall
        addi    s0, s0, -1
        bne     s0, zero, fill
        addi    a0, zero, 1
        addi    a7, zero, 8             # ENTER_WRITE
        ecall
";

// Fills the output with bytes.
const OUTPUT_FULL: &str = "
        li      s0, 65536
fill:   addi    a7, zero, 2             # PUTC
        ecall
        addi    s0, s0, -1
        bne     s0, zero, fill
";

// Object 1, for writing.
const ENTER: &str = "
        addi    a0, zero, 1
        addi    a7, zero, 8             # ENTER_WRITE
        ecall
";

const UNKNOWN_CALL: &str = "
        addi    a7, zero, 13
        ecall
";

const NO_WORD: &str = "
        addi    a0, zero, 1
        addi    a1, zero, 8
        addi    a7, zero, 11            # PUT
        ecall
";

const LOWER_ENTRY: &str = "
        addi    a0, zero, 0
        addi    a7, zero, 7             # ENTER_READ
        ecall
";

const NO_OBJECT: &str = "
        addi    a0, zero, 2
        addi    a7, zero, 7             # ENTER_READ
        ecall
";

// What runs before, code, a budget, and the end of a guest of one thread and two objects.
type Ended = (&'static str, &'static str, u64, End);

// Whether that end is read off the trace of a recording, which fits.
fn is_end(alloc: Global, row: Ended) -> Result<bool, Fail> {
    let (before, code, budget, end) = row;
    let source = [".objects 2", before, code];
    let fitted = fitted_in_order(alloc, &source, &[], budget.min(BUDGET))?;
    let found = fitted.trace().threads().first().map(|thread| thread.end());
    Ok(found == Some(end))
}

const EACH: [Ended; 14] = [
    (
        "",
        "addi a0, zero, 7\n addi a7, zero, 1\n ecall",
        BUDGET,
        End::Exit(7),
    ),
    ("", "ebreak", BUDGET, End::Breakpoint),
    ("", ".word 0", BUDGET, End::IllegalWord),
    (
        "",
        "addi t0, zero, 2\n jalr zero, 0(t0)",
        BUDGET,
        End::TargetMisaligned,
    ),
    ("", "jalr zero, 0(zero)", BUDGET, End::OutsideCode),
    ("", "lw t0, 0(zero)", BUDGET, End::BadLoad),
    ("", "sw t0, 0(zero)", BUDGET, End::BadStore),
    ("", UNKNOWN_CALL, BUDGET, End::UnknownCall),
    ("", NO_OBJECT, BUDGET, End::NoSuchObject),
    (ENTER, LOWER_ENTRY, BUDGET, End::EntryOutOfOrder),
    ("", "addi a7, zero, 9\n ecall", BUDGET, End::NotHeld),
    (OUTPUT_FULL, "ecall", BUDGET, End::OutputFull),
    ("", "loop: jal zero, loop", 9, End::BudgetSpent),
    (LOG_FULL, "ecall", BUDGET, End::LogFull),
];

#[test]
fn each_end_comes_about(rt: HostRuntime) -> Result<(), Fail> {
    for &row in &EACH {
        assert!(rt; is_end(rt.alloc(), row)?);
    }
    Ok(())
}

// Calls that are none, objects that there aren't, and what isn't held.
const BY_ARGUMENTS: [Ended; 9] = [
    ("", "ecall", BUDGET, End::UnknownCall),
    ("", "addi a7, zero, -1\n ecall", BUDGET, End::UnknownCall),
    (
        "",
        "addi a0, zero, 2\n addi a7, zero, 9\n ecall",
        BUDGET,
        End::NoSuchObject,
    ),
    (
        "",
        "addi a0, zero, -1\n addi a7, zero, 8\n ecall",
        BUDGET,
        End::NoSuchObject,
    ),
    (
        "",
        "addi a0, zero, 256\n addi a7, zero, 8\n ecall",
        BUDGET,
        End::NoSuchObject,
    ),
    ("", "addi a7, zero, 10\n ecall", BUDGET, End::NotHeld),
    ("", "addi a7, zero, 11\n ecall", BUDGET, End::NotHeld),
    // Object 1 again, and a word of it that isn't given where it is held for reading.
    (ENTER, ENTER, BUDGET, End::EntryOutOfOrder),
    (
        LOWER_ENTRY,
        "addi a7, zero, 11\n ecall",
        BUDGET,
        End::NotHeld,
    ),
];

#[test]
fn a_call_ends_by_its_arguments(rt: HostRuntime) -> Result<(), Fail> {
    for &row in &BY_ARGUMENTS {
        assert!(rt; is_end(rt.alloc(), row)?);
    }
    Ok(())
}

// Of two conditions that fail at the same time, the first that is tested decides.
const FIRST: [Ended; 5] = [
    ("", NO_WORD, BUDGET, End::NoSuchObject), // and not held
    (LOG_FULL, NO_OBJECT, BUDGET, End::NoSuchObject), // and the log is full
    (OUTPUT_FULL, UNKNOWN_CALL, BUDGET, End::UnknownCall), // and the output is full
    (LOG_FULL, UNKNOWN_CALL, BUDGET, End::UnknownCall), // and the log is full
    (
        LOG_FULL_WITH_AN_ENTRY,
        LOWER_ENTRY,
        BUDGET,
        End::EntryOutOfOrder,
    ),
];

#[test]
fn the_first_condition_decides(rt: HostRuntime) -> Result<(), Fail> {
    for &row in &FIRST {
        assert!(rt; is_end(rt.alloc(), row)?);
    }
    Ok(())
}

// A spent budget is tested before what the instruction and the call need.
const BUDGETS: [Ended; 9] = [
    ("", "jalr zero, 0(zero)", 1, End::BudgetSpent), // then outside the code
    ("", "addi t0, zero, 0\n .word 0", 1, End::BudgetSpent), // then an illegal word
    (
        "",
        "addi t0, zero, 2\n jalr zero, 0(t0)", // then a misaligned target
        1,
        End::BudgetSpent,
    ),
    (
        "",
        "addi t0, zero, 0\n lw t0, 0(zero)", // then a load outside memory
        1,
        End::BudgetSpent,
    ),
    ("", "addi t0, zero, 0\n ebreak", 1, End::BudgetSpent), // then a breakpoint
    ("", "addi a7, zero, 1\n ecall", 1, End::BudgetSpent), // then the thread's own end
    ("", UNKNOWN_CALL, 1, End::BudgetSpent), // then an unknown call
    ("", "ebreak", 0, End::BudgetSpent),
    // 2 instructions of `li`, then 4 for each clock's answer, and one that sets the call's number.
    (
        LOG_FULL,
        "addi a7, zero, 4\n ecall",
        2 + 4 * 1_048_576 + 1,
        End::BudgetSpent,
    ),
];

#[test]
fn the_budget_decides_before_the_step(rt: HostRuntime) -> Result<(), Fail> {
    for &row in &BUDGETS {
        assert!(rt; is_end(rt.alloc(), row)?);
    }
    Ok(())
}
