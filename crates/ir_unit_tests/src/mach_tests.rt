//! Small programs, run a step at a time.

ghost use Rattle.std.specs.Prelude.{◌≡◌, ◌≤◌, ◌<◌, ◌%◌, ◌^◌, ◌≤ℤ◌, pos, negsuc, length};

use crate::machines::{add, image, load, store, upper};
use crate::registers::{A0, A7, T0, T1, ZERO};
use ir_image::{Code, Image};
use ir_isa::{BranchOffset, BranchOp, Immediate, Inst, LoadOp, RegisterOp, StoreOp};
use ir_mach::{Fault, Mach, Ran};
use std::alloc::{AllocError, Global};
use std::process::Abort;
use std::test::Fail;

// What the step after the first `before` steps of a program comes to, and the machine after it.
fn last(
    rt: &impl Abort,
    alloc: Global,
    program: &[Inst],
    before: u32,
) -> Result<(Ran, Mach), Fail> {
    let image = image(rt, alloc, program)?;
    let mut mach = Mach::new(alloc, &image, 0)?;
    for _ in 0..before {
        assert!(rt; mach.step(image.code()) == Ran::Ran);
    }
    let ran = mach.next(image.code());
    assert!(rt; mach.step(image.code()) == ran);
    Ok((ran, mach))
}

// Where t0 points, how far from there it is loaded, and what a0 becomes.
const LOADS: [(u32, i32, LoadOp, Option<u32>); 18] = [
    (0x0010_0000, 0, LoadOp::Lb, Some(0xffff_ffff)),
    (0x0010_0000, 1, LoadOp::Lb, Some(0xffff_ff80)),
    (0x0010_0000, 1, LoadOp::Lbu, Some(0x0000_0080)),
    (0x0010_0000, 0, LoadOp::Lh, Some(0xffff_80ff)),
    (0x0010_0000, 0, LoadOp::Lhu, Some(0x0000_80ff)),
    (0x0010_0000, 0, LoadOp::Lw, Some(0x0000_80ff)),
    (0x0010_0000, 1, LoadOp::Lh, None),
    (0x0010_0000, 2, LoadOp::Lw, None),
    (0x0010_0000, -1, LoadOp::Lbu, None),
    (0x0011_0000, -4, LoadOp::Lw, Some(0)),
    (0x0011_0000, -2, LoadOp::Lw, None),
    (0x0011_0000, -1, LoadOp::Lbu, Some(0)),
    (0x0011_0000, 0, LoadOp::Lw, None),
    (0x0001_0000, 0, LoadOp::Lw, Some(0x0001_02b7)),
    (0x0001_0000, 2, LoadOp::Lhu, Some(0x0000_0001)),
    (0x0001_0000, 1, LoadOp::Lbu, Some(0x0000_0002)),
    (0x0001_0000, -1, LoadOp::Lbu, None),
    (0x0001_0000, 12, LoadOp::Lw, None),
];

// What the load comes to, a0 and pc after it.
fn after_load(
    rt: &impl Abort,
    alloc: Global,
    start: u32,
    more: i32,
    op: LoadOp,
) -> Result<(Ran, u32, u32), Fail>
    requires whole { start % 2 ^ 12 ≡ 0 }
    requires fits { start < 2 ^ 32 }
    requires low { negsuc 2047 ≤ℤ more }
    requires high { more ≤ℤ pos 2047 }
{
    let program = [upper(T0, start), add(T0, T0, more), load(op)];
    let (ran, mach) = last(rt, alloc, &program, 2)?;
    Ok((ran, mach.reg(10), mach.pc()))
}

// What it has to come to.
fn loaded(wanted: Option<u32>) -> (Ran, u32, u32) {
    match wanted {
        Some(value) => (Ran::Ran, value, 0x0001_000c),
        None => (Ran::Fault(Fault::BadLoad), 0, 0x0001_0008),
    }
}

#[test]
fn loads(rt: HostRuntime) -> Result<(), Fail> {
    for &(start, more, op, wanted) in &LOADS {
        assert!(rt; start % 0x1000 == 0 && -2048 <= more && more <= 2047);
        let after = after_load(&rt, rt.alloc(), start, more, op)?;
        assert!(rt; after == loaded(wanted), "of {start:08x} and {more}");
    }
    Ok(())
}

// Where t0 points, how far from there t1 is stored, and what the first word of private memory becomes, or the last
// word if t0 points past it.
const STORES: [(u32, i32, StoreOp, Option<u32>); 10] = [
    (0x0010_0000, 0, StoreOp::Sb, Some(0x0000_80fe)),
    (0x0010_0000, 2, StoreOp::Sh, Some(0xfffe_80ff)),
    (0x0010_0000, 0, StoreOp::Sw, Some(0xffff_fffe)),
    (0x0011_0000, -1, StoreOp::Sb, Some(0xfe00_0000)),
    (0x0011_0000, -4, StoreOp::Sw, Some(0xffff_fffe)),
    (0x0011_0000, 0, StoreOp::Sb, None),
    (0x0011_0000, -2, StoreOp::Sw, None),
    (0x0010_0000, 1, StoreOp::Sh, None),
    (0x0010_0000, -1, StoreOp::Sb, None),
    (0x0001_0000, 0, StoreOp::Sw, None),
];

// What the store of t1, which is -2, comes to, and the first and the last word after it.
fn after_store(
    rt: &impl Abort,
    alloc: Global,
    start: u32,
    more: i32,
    op: StoreOp,
) -> Result<(Ran, u32, u32), Fail>
    requires whole { start % 2 ^ 12 ≡ 0 }
    requires fits { start < 2 ^ 32 }
    requires low { negsuc 2047 ≤ℤ more }
    requires high { more ≤ℤ pos 2047 }
{
    let program = [
        upper(T0, start),
        add(T0, T0, more),
        add(T1, ZERO, -2),
        store(op),
    ];
    let (ran, mach) = last(rt, alloc, &program, 3)?;
    let first = mach.load_word(0x0010_0000);
    Ok((ran, first, mach.load_word(0x0010_fffc)))
}

// What it has to come to.
fn stored(start: u32, wanted: Option<u32>) -> (Ran, u32, u32) {
    match wanted {
        Some(value) if start == 0x0011_0000 => (Ran::Ran, 0x80ff, value),
        Some(value) => (Ran::Ran, value, 0),
        None => (Ran::Fault(Fault::BadStore), 0x80ff, 0),
    }
}

#[test]
fn stores(rt: HostRuntime) -> Result<(), Fail> {
    for &(start, more, op, wanted) in &STORES {
        assert!(rt; start % 0x1000 == 0 && -2048 <= more && more <= 2047);
        let after = after_store(&rt, rt.alloc(), start, more, op)?;
        assert!(rt; after == stored(start, wanted), "of {start:08x} and {more}");
    }
    Ok(())
}

// A jump through t0, which is this much above the code's start: what it comes to, pc and t0 after it.
const JUMPS: [(i32, Ran, u32, u32); 2] = [
    (5, Ran::Ran, 0x0001_0004, 0x0001_000c),
    (
        6,
        Ran::Fault(Fault::TargetMisaligned),
        0x0001_0008,
        0x0001_0006,
    ),
];

fn after_jump(rt: &impl Abort, alloc: Global, more: i32) -> Result<(Ran, u32, u32), Fail>
    requires low { negsuc 2047 ≤ℤ more }
    requires high { more ≤ℤ pos 2047 }
{
    let jump = Inst::Jalr {
        rd: T0,
        rs1: T0,
        imm: Immediate { value: 0 },
    };
    let program = [upper(T0, 0x0001_0000), add(T0, T0, more), jump];
    let (ran, mach) = last(rt, alloc, &program, 2)?;
    Ok((ran, mach.pc(), mach.reg(5)))
}

#[test]
fn jumps(rt: HostRuntime) -> Result<(), Fail> {
    for &(more, wanted, pc, left) in &JUMPS {
        assert!(rt; more == 5 || more == 6);
        assert!(rt;
            after_jump(&rt, rt.alloc(), more)? == (wanted, pc, left),
            "by {more}"
        );
    }
    Ok(())
}

// A branch by the comparison of t0 with itself, so far: what it comes to, and pc after it.
const BRANCHES: [(BranchOp, i32, Ran, u32); 3] = [
    (BranchOp::Bne, 6, Ran::Ran, 0x0001_000c),
    (BranchOp::Beq, 8, Ran::Ran, 0x0001_0010),
    (
        BranchOp::Beq,
        6,
        Ran::Fault(Fault::TargetMisaligned),
        0x0001_0008,
    ),
];

fn after_branch(
    rt: &impl Abort,
    alloc: Global,
    op: BranchOp,
    offset: BranchOffset,
) -> Result<(Ran, u32), Fail> {
    let branch = Inst::Branch {
        op,
        rs1: T0,
        rs2: T0,
        offset,
    };
    let program = [add(T0, ZERO, 1), add(T1, ZERO, 1), branch];
    let (ran, mach) = last(rt, alloc, &program, 2)?;
    Ok((ran, mach.pc()))
}

// After a branch that isn't taken a program continues, however misaligned its target.
#[test]
fn branches(rt: HostRuntime) -> Result<(), Fail> {
    for &(op, more, wanted, pc) in &BRANCHES {
        assert!(rt; more == 6 || more == 8);
        let after = after_branch(&rt, rt.alloc(), op, BranchOffset { value: more })?;
        assert!(rt; after == (wanted, pc), "by {more}");
    }
    Ok(())
}

// The machine that wrote x0, and a0, and came to an EBREAK.
fn broken(rt: &impl Abort, alloc: Global) -> Result<(Ran, Mach), Fail> {
    last(
        rt,
        alloc,
        &[add(ZERO, ZERO, 1), add(A0, ZERO, 3), Inst::Ebreak],
        2,
    )
}

// A write to x0 is lost, and EBREAK ends the thread.
#[test]
fn ends(rt: HostRuntime) -> Result<(), Fail> {
    let (ran, mach) = broken(&rt, rt.alloc())?;
    assert!(rt; ran == Ran::Fault(Fault::Breakpoint));
    assert_eq!(rt; mach.reg(0), 0);
    Ok(())
}

#[test]
fn a_copy_is_as_its_original(rt: HostRuntime) -> Result<(), Fail> {
    let (_, mach) = broken(&rt, rt.alloc())?;
    let copy = mach.copy()?;
    assert!(rt; copy.pc() == mach.pc() && copy.reg(10) == 3 && copy.reg(2) == 0x0011_0000);
    assert!(rt; copy.memory() == mach.memory());
    Ok(())
}

// A program with two calls.
fn calling() -> [Inst; 5] {
    [
        add(A0, ZERO, 72),
        Inst::Ecall,
        Inst::Op {
            op: RegisterOp::Add,
            rd: A0,
            rs1: A0,
            rs2: A0,
        },
        Inst::Ecall,
        add(A7, ZERO, 1),
    ]
}

// What the next step comes to and a0 after it; a call is passed with this answer.
fn went(mach: &mut Mach, code: &Code, answer: Option<u32>) -> (Ran, u32) {
    let ran = mach.step(code);
    if ran == Ran::Call {
        mach.pass_call(answer);
    }
    (ran, mach.reg(10))
}

// The answer to a call, what each step comes to, and a0 after it.
const CALLS: [(Option<u32>, Ran, u32); 6] = [
    (None, Ran::Ran, 72),
    (None, Ran::Call, 72),
    (None, Ran::Ran, 144),
    (Some(9), Ran::Call, 9),
    (None, Ran::Ran, 9),
    (None, Ran::Fault(Fault::OutsideCode), 9),
];

// The first row that isn't so.
fn other_call(mach: &mut Mach, code: &Code) -> Option<usize> {
    for (row, (answer, ran, left)) in CALLS.iter().enumerate() {
        if went(mach, code, *answer) != (*ran, *left) {
            return Some(row);
        }
    }
    None
}

// Two calls are passed, and past its last word a program ends.
#[test]
fn calls(rt: HostRuntime) -> Result<(), Fail> {
    let image = image(&rt, rt.alloc(), &calling())?;
    let mut mach = Mach::new(rt.alloc(), &image, 0)?;
    assert_eq!(rt; other_call(&mut mach, image.code()), None);
    assert_eq!(rt; mach.pc(), 0x0001_0014);
    Ok(())
}

// A run stops at its limit and before a call, and can be done again from a machine that was kept.
#[test]
fn runs(rt: HostRuntime) -> Result<(), Fail> {
    let program = [add(A0, A0, 1), add(A0, A0, 1), add(A0, A0, 1), Inst::Ecall];
    let image = image(&rt, rt.alloc(), &program)?;
    let kept = Mach::new(rt.alloc(), &image, 0)?;
    let mut mach = kept.copy()?;
    let lengths = (
        mach.run_on(image.code(), 2).0,
        mach.run_on(image.code(), 2).0,
    );
    assert_eq!(rt; (lengths, mach.reg(10)), ((2, 1), 3));
    mach.assign(&kept);
    assert_eq!(rt; mach.run_on(image.code(), 9), (3, Ran::Call));
    Ok(())
}

// How far a run goes, a0 and x0 after it, and what stops it.
fn ran(mach: &mut Mach, code: &Code) -> (u64, u32, u32, Ran) {
    let (steps, ran) = mach.run_on(code, 9);
    (steps, mach.reg(10), mach.reg(0), ran)
}

// A run goes past a load of code, and stops at the word after the code.
#[test]
fn a_run_loads_code(rt: HostRuntime) -> Result<(), Fail> {
    let program = [
        upper(T0, 0x0001_0000),
        load(LoadOp::Lw),
        add(A0, A0, 1),
        add(ZERO, A0, 1),
    ];
    let image = image(&rt, rt.alloc(), &program)?;
    let mut mach = Mach::new(rt.alloc(), &image, 0)?;
    let stops = Ran::Fault(Fault::OutsideCode);
    assert!(rt; ran(&mut mach, image.code()) == (4, 0x0001_02b8, 0, stops));
    Ok(())
}

// A program that counts t0 down from 3 to 0, and stores and loads it on the way.
fn countdown() -> [Inst; 6] {
    [
        add(T1, ZERO, 3),
        upper(T0, 0x0010_0000),
        store(StoreOp::Sw),
        load(LoadOp::Lw),
        add(T1, A0, -1),
        Inst::Branch {
            op: BranchOp::Bne,
            rs1: T1,
            rs2: ZERO,
            offset: BranchOffset { value: -12 },
        },
    ]
}

// Whether a run of this length leaves what is left there.
fn leaves(alloc: Global, image: &Image, steps: u64, left: &Mach) -> Result<bool, AllocError>
    requires { 0 < length image.now.entries }
{
    let mut mach = Mach::new(alloc, image, 0)?;
    let whole = mach.run_on(image.code(), steps).0 == steps;
    let same = mach.pc() == left.pc() && mach.reg(6) == left.reg(6);
    Ok(whole && same && mach.memory() == left.memory())
}

// A run of each length leaves what its number of single steps leaves.
#[test]
fn a_run_is_its_steps(rt: HostRuntime) -> Result<(), Fail> {
    let image = image(&rt, rt.alloc(), &countdown())?;
    let mut stepped = Mach::new(rt.alloc(), &image, 0)?;
    for steps in 1..15u64 {
        assert!(rt; stepped.step(image.code()) == Ran::Ran);
        assert!(rt;
            leaves(rt.alloc(), &image, steps, &stepped)?,
            "after {steps}"
        );
    }
    assert_eq!(rt; stepped.reg(6), 0);
    Ok(())
}
