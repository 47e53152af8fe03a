//! Which registers are live in short programs, and what is kept of them.

use crate::Live;
use ir_image::{Code, read_image};
use ir_mach::Mach;
use std::alloc::{AllocError, Global};
use std::test::Fail;

// Writes a word of an object, and ends with what a0 holds.
const PUTS: [u32; 6] = [
    0x00b0_0893, // li a7, 11
    0x0000_0073, // ecall
    0x0010_0893, // li a7, 1
    0x0000_0073, // ecall
    0x0003_0513, // mv a0, t1
    0xffff_ffff,
];

// Sums up the numbers from t0 down to 1, and ends with the sum.
const SUMS: [u32; 6] = [
    0x0053_0333, // add t1, t1, t0
    0xfff2_8293, // addi t0, t0, -1
    0xfe02_9ce3, // bnez t0, -8
    0x0003_0513, // mv a0, t1
    0x0010_0893, // li a7, 1
    0x0000_0073, // ecall
];

// Goes to where ra says, and loads what a7 asks for.
const GOES: [u32; 4] = [
    0x0000_8067, // ret
    0x0003_2883, // lw a7, 0(t1)
    0x0000_0073, // ecall
    0x0010_0073, // ebreak
];

// A pc, the number of a call, a register, and whether that is live.
type Row = (u32, u32, u8, bool);

const PUT_ROWS: [Row; 22] = [
    // A constant call comes next, which reads a0, a1 and a2.
    (0x0001_0000, 0, 10, true),
    (0x0001_0000, 0, 11, true),
    (0x0001_0000, 0, 12, true),
    (0x0001_0000, 0, 13, false),
    (0x0001_0000, 13, 17, false),
    // PUT.
    (0x0001_0004, 11, 9, false),
    (0x0001_0004, 11, 10, true),
    (0x0001_0004, 11, 11, true),
    (0x0001_0004, 11, 12, true),
    // GET reads a0 and a1; SELF answers without reading; 0 is no call.
    (0x0001_0004, 10, 10, true),
    (0x0001_0004, 10, 12, false),
    (0x0001_0004, 12, 10, false),
    (0x0001_0004, 0, 10, false),
    // After PUT a0 alone is read, by the end.
    (0x0001_0008, 11, 10, true),
    (0x0001_0008, 11, 11, false),
    (0x0001_0008, 11, 12, false),
    (0x0001_000c, 1, 10, true),
    // After the end nothing comes, and an illegal word reads nothing.
    (0x0001_000c, 1, 6, false),
    (0x0001_0010, 1, 6, true),
    (0x0001_0014, 1, 6, false),
    // Outside the code nothing is read; between words all counts as read.
    (0x0001_0018, 1, 10, false),
    (0x0001_0002, 1, 31, true),
];

const SUM_ROWS: [Row; 9] = [
    (0x0001_0000, 0, 5, true),
    (0x0001_0000, 0, 6, true),
    (0x0001_0000, 0, 7, false),
    (0x0001_0000, 0, 10, false),
    (0x0001_0008, 0, 5, true),
    (0x0001_0008, 0, 6, true),
    (0x0001_000c, 0, 5, false),
    (0x0001_000c, 0, 6, true),
    (0x0001_0010, 0, 6, false),
];

const GO_ROWS: [Row; 7] = [
    (0x0001_0000, 0, 1, true),
    (0x0001_0000, 0, 6, true),
    (0x0001_0000, 0, 12, true),
    (0x0001_0000, 0, 13, false),
    (0x0001_0004, 0, 12, true),
    (0x0001_0008, 0, 12, false),
    (0x0001_0008, 11, 12, true),
];

// The rows that a table of the code of these words denies.
fn denied(alloc: Global, words: &[u32], rows: &[Row]) -> Result<Vec<Row>, AllocError> {
    let code = Code::new(alloc, Vec::from_slice(alloc, words)?)?;
    let live = Live::of(alloc, &code)?;
    let mut denied = Vec::new(alloc);
    for &(pc, number, register, wanted) in rows {
        if live.is_live(pc, number, register) != wanted {
            denied.push((pc, number, register, wanted))?;
        }
    }
    Ok(denied)
}

#[test]
fn registers_are_live_up_to_their_last_reading(rt: HostRuntime) -> Result<(), Fail> {
    assert_eq!(rt; denied(rt.alloc(), &PUTS, &PUT_ROWS)?.len(), 0);
    assert_eq!(rt; denied(rt.alloc(), &SUMS, &SUM_ROWS)?.len(), 0);
    assert_eq!(rt; denied(rt.alloc(), &GOES, &GO_ROWS)?.len(), 0);
    Ok(())
}

// An image of one thread, whose code ends with the stack's address.
const ENDS: [u8; 30] = [
    0x49, 0x52, 0x49, 0x31, 1, 0, 3, 0, 0, 0, 0, 0, 0, 0, 0, 0, 1, 0, //
    0x13, 0x05, 0x01, 0x00, // mv a0, sp
    0x93, 0x08, 0x10, 0x00, // li a7, 1
    0x73, 0x00, 0x00, 0x00, // ecall
];

#[test]
fn live_registers_and_a7_are_kept(rt: HostRuntime) -> Result<(), Fail> {
    let image = read_image(rt.alloc(), &ENDS)?;
    assert!(rt; !image.entries().is_empty());
    let live = Live::of(rt.alloc(), image.code())?;
    let mut mach = Mach::new(rt.alloc(), &image, 0)?;
    let kept = |mach: &Mach| (live.kept(mach, 2), live.kept(mach, 10), live.kept(mach, 17));
    assert_eq!(rt; kept(&mach), (0x0011_0000, 0, 0));
    let _ran = mach.step(image.code());
    assert_eq!(rt; kept(&mach), (0, 0x0011_0000, 0));
    let _ran = mach.step(image.code());
    assert_eq!(rt; kept(&mach), (0, 0x0011_0000, 1));
    Ok(())
}
