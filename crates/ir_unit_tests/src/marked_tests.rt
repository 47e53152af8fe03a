//! Runs of a machine that stop before marked words.

use crate::machines::{add, image};
use crate::registers::{A0, ZERO};
use ir_image::Code;
use ir_isa::Inst;
use ir_mach::{Mach, MarkedCode};
use std::alloc::{AllocError, Global};
use std::test::Fail;

// Adds one to a register four times.
fn adding() -> [Inst; 5] {
    [
        add(A0, ZERO, 1),
        add(A0, A0, 1),
        add(A0, A0, 1),
        add(A0, A0, 1),
        Inst::Ebreak,
    ]
}

// How many steps a run takes from the first word over code of these marks, and what the pc is then.
fn run_over(
    alloc: Global,
    mach: &Mach,
    code: &Code,
    marks: &[bool],
    limit: u64,
) -> Result<(u64, u32), AllocError> {
    let marked = MarkedCode::new(alloc, code, Vec::from_slice(alloc, marks)?)?;
    let mut mach = mach.copy()?;
    let taken = mach.run_unmarked(&marked, limit);
    Ok((taken, mach.pc()))
}

const NONE: [bool; 5] = [false; 5];

const THIRD: [bool; 5] = [false, false, true, false, false];

// The marks, the limit, and how far the run comes. Words without a mark count as marked.
const RUNS: [(&[bool], u64, (u64, u32)); 6] = [
    (&NONE, 100, (4, 0x0001_0010)),
    (&NONE, 3, (3, 0x0001_000c)),
    (&THIRD, 100, (2, 0x0001_0008)),
    (&THIRD, 1, (1, 0x0001_0004)),
    (&[true], 100, (0, 0x0001_0000)),
    (&[false], 100, (1, 0x0001_0004)),
];

#[test]
fn runs_stop_before_marked_words(rt: HostRuntime) -> Result<(), Fail> {
    let image = image(&rt, rt.alloc(), &adding())?;
    let mach = Mach::new(rt.alloc(), &image, 0)?;
    for &(marks, limit, wanted) in &RUNS {
        let found = run_over(rt.alloc(), &mach, image.code(), marks, limit)?;
        assert_eq!(rt; found, wanted);
    }
    Ok(())
}
