//! Results that the manual's text gives, worked by hand; many of the operands are those of the
//! public suite of instruction tests.

ghost use Rattle.std.specs.Prelude.{◌<◌, length, IfOk};

use crate::machines::image_of;
use crate::registers::{A0, T1, T2};
use ir_image::Image;
use ir_isa::RegisterOp::{
    Add, And, Div, Divu, Mul, Mulh, Mulhsu, Mulhu, Or, Rem, Remu, Sll, Slt, Sltu, Sra, Srl, Sub,
    Xor,
};
use ir_isa::{
    BranchOffset, BranchOp, Immediate, ImmediateOp, Inst, RegisterOp, ShiftAmount, ShiftOp, encode,
};
use ir_mach::{Mach, Ran};
use std::alloc::{AllocError, Global};

// An operation, its two operands, and the result.
const OF_REGISTERS: [(RegisterOp, u32, u32, u32); 80] = [
    (Add, 0x0000_0003, 0x0000_0007, 0x0000_000a),
    (Add, 0xffff_ffff, 0x0000_0001, 0x0000_0000),
    (Add, 0x8000_0000, 0x8000_0000, 0x0000_0000),
    (Add, 0x7fff_ffff, 0x7fff_ffff, 0xffff_fffe),
    (Sub, 0x0000_0003, 0x0000_0007, 0xffff_fffc),
    (Sub, 0x0000_0000, 0x8000_0000, 0x8000_0000),
    (Sub, 0x8000_0000, 0x0000_0001, 0x7fff_ffff),
    (Sll, 0x0000_0001, 0x0000_001f, 0x8000_0000),
    (Sll, 0x2121_2121, 0xffff_ffce, 0x4848_4000),
    (Sll, 0x0000_0001, 0x0000_0020, 0x0000_0001),
    (Slt, 0x8000_0000, 0x0000_0001, 0x0000_0001),
    (Slt, 0x7fff_ffff, 0x8000_0000, 0x0000_0000),
    (Slt, 0xffff_ffff, 0xffff_ffff, 0x0000_0000),
    (Sltu, 0x8000_0000, 0x0000_0001, 0x0000_0000),
    (Sltu, 0x7fff_ffff, 0x8000_0000, 0x0000_0001),
    (Sltu, 0x0000_0000, 0xffff_ffff, 0x0000_0001),
    (Xor, 0xff00_ff00, 0x0f0f_0f0f, 0xf00f_f00f),
    (Or, 0xff00_ff00, 0x0f0f_0f0f, 0xff0f_ff0f),
    (And, 0xff00_ff00, 0x0f0f_0f0f, 0x0f00_0f00),
    (Srl, 0x8000_0000, 0x0000_001f, 0x0000_0001),
    (Srl, 0x2121_2121, 0xffff_ffc7, 0x0042_4242),
    (Srl, 0x8000_0000, 0x0000_0020, 0x8000_0000),
    (Sra, 0x8000_0000, 0x0000_001f, 0xffff_ffff),
    (Sra, 0x7fff_ffff, 0x0000_001f, 0x0000_0000),
    (Sra, 0x8181_8181, 0x0000_000e, 0xfffe_0606),
    (Sra, 0x8000_0000, 0xffff_ffe4, 0xf800_0000),
    (Mul, 0x0000_7e00, 0xb6db_6db7, 0x0000_1200),
    (Mul, 0x0000_7fc0, 0xb6db_6db7, 0x0000_1240),
    (Mul, 0xaaaa_aaab, 0x0002_fe7d, 0x0000_ff7f),
    (Mul, 0xff00_0000, 0xff00_0000, 0x0000_0000),
    (Mul, 0xffff_ffff, 0xffff_ffff, 0x0000_0001),
    (Mul, 0xffff_ffff, 0x0000_0001, 0xffff_ffff),
    (Mulh, 0xaaaa_aaab, 0x0002_fe7d, 0xffff_0081),
    (Mulh, 0x0002_fe7d, 0xaaaa_aaab, 0xffff_0081),
    (Mulh, 0xff00_0000, 0xff00_0000, 0x0001_0000),
    (Mulh, 0xffff_ffff, 0xffff_ffff, 0x0000_0000),
    (Mulh, 0xffff_ffff, 0x0000_0001, 0xffff_ffff),
    (Mulh, 0x0000_0001, 0xffff_ffff, 0xffff_ffff),
    (Mulh, 0x8000_0000, 0x8000_0000, 0x4000_0000),
    (Mulh, 0x8000_0000, 0x7fff_ffff, 0xc000_0000),
    (Mulhsu, 0x8000_0000, 0xffff_8000, 0x8000_4000),
    (Mulhsu, 0xaaaa_aaab, 0x0002_fe7d, 0xffff_0081),
    (Mulhsu, 0x0002_fe7d, 0xaaaa_aaab, 0x0001_fefe),
    (Mulhsu, 0xff00_0000, 0xff00_0000, 0xff01_0000),
    (Mulhsu, 0xffff_ffff, 0xffff_ffff, 0xffff_ffff),
    (Mulhsu, 0xffff_ffff, 0x0000_0001, 0xffff_ffff),
    (Mulhsu, 0x0000_0001, 0xffff_ffff, 0x0000_0000),
    (Mulhu, 0x8000_0000, 0xffff_8000, 0x7fff_c000),
    (Mulhu, 0xaaaa_aaab, 0x0002_fe7d, 0x0001_fefe),
    (Mulhu, 0xff00_0000, 0xff00_0000, 0xfe01_0000),
    (Mulhu, 0xffff_ffff, 0xffff_ffff, 0xffff_fffe),
    (Mulhu, 0xffff_ffff, 0x0000_0001, 0x0000_0000),
    (Div, 0x0000_0014, 0x0000_0006, 0x0000_0003),
    (Div, 0xffff_ffec, 0x0000_0006, 0xffff_fffd),
    (Div, 0x0000_0014, 0xffff_fffa, 0xffff_fffd),
    (Div, 0xffff_ffec, 0xffff_fffa, 0x0000_0003),
    (Div, 0xffff_fff9, 0x0000_0002, 0xffff_fffd),
    (Div, 0x8000_0000, 0x0000_0001, 0x8000_0000),
    (Div, 0x8000_0000, 0xffff_ffff, 0x8000_0000),
    (Div, 0x8000_0000, 0x0000_0000, 0xffff_ffff),
    (Div, 0x0000_0007, 0x0000_0000, 0xffff_ffff),
    (Div, 0x0000_0000, 0x0000_0000, 0xffff_ffff),
    (Divu, 0xffff_ffec, 0x0000_0006, 0x2aaa_aaa7),
    (Divu, 0x0000_0014, 0xffff_fffa, 0x0000_0000),
    (Divu, 0x8000_0000, 0xffff_ffff, 0x0000_0000),
    (Divu, 0x8000_0000, 0x0000_0001, 0x8000_0000),
    (Divu, 0x0000_0001, 0x0000_0000, 0xffff_ffff),
    (Rem, 0x0000_0014, 0x0000_0006, 0x0000_0002),
    (Rem, 0xffff_ffec, 0x0000_0006, 0xffff_fffe),
    (Rem, 0x0000_0014, 0xffff_fffa, 0x0000_0002),
    (Rem, 0xffff_ffec, 0xffff_fffa, 0xffff_fffe),
    (Rem, 0xffff_fff9, 0x0000_0002, 0xffff_ffff),
    (Rem, 0x8000_0000, 0xffff_ffff, 0x0000_0000),
    (Rem, 0x8000_0000, 0x0000_0000, 0x8000_0000),
    (Rem, 0x0000_0007, 0x0000_0000, 0x0000_0007),
    (Remu, 0xffff_ffec, 0x0000_0006, 0x0000_0002),
    (Remu, 0x0000_0014, 0xffff_fffa, 0x0000_0014),
    (Remu, 0x8000_0000, 0xffff_ffff, 0x8000_0000),
    (Remu, 0x8000_0000, 0x0000_0000, 0x8000_0000),
    (Remu, 0x0000_0001, 0x0000_0000, 0x0000_0001),
];

// A shift, its operand and amount, and the result.
const SHIFTS: [(ShiftOp, u32, u8, u32); 7] = [
    (ShiftOp::Slli, 0x0000_0001, 31, 0x8000_0000),
    (ShiftOp::Slli, 0x2121_2121, 14, 0x4848_4000),
    (ShiftOp::Srli, 0x8000_0000, 31, 0x0000_0001),
    (ShiftOp::Srli, 0x2121_2121, 7, 0x0042_4242),
    (ShiftOp::Srai, 0x8000_0000, 31, 0xffff_ffff),
    (ShiftOp::Srai, 0x7fff_ffff, 7, 0x00ff_ffff),
    (ShiftOp::Srai, 0x8181_8181, 0, 0x8181_8181),
];

// An operation, its operand and immediate, and the result.
const WITH_IMMEDIATES: [(ImmediateOp, u32, i32, u32); 14] = [
    (ImmediateOp::Addi, 0x0000_0003, 7, 0x0000_000a),
    (ImmediateOp::Addi, 0x0000_0000, -2048, 0xffff_f800),
    (ImmediateOp::Addi, 0x7fff_ffff, 1, 0x8000_0000),
    (ImmediateOp::Slti, 0xffff_ffff, 0, 1),
    (ImmediateOp::Slti, 0x0000_0000, -1, 0),
    (ImmediateOp::Slti, 0x8000_0000, -2048, 1),
    (ImmediateOp::Sltiu, 0x0000_0005, -1, 1),
    (ImmediateOp::Sltiu, 0xffff_ffff, -1, 0),
    (ImmediateOp::Sltiu, 0x0000_0000, 1, 1),
    (ImmediateOp::Xori, 0x00ff_0f00, -241, 0xff00_f00f),
    (ImmediateOp::Xori, 0x0ff0_0ff0, 0x70f, 0x0ff0_08ff),
    (ImmediateOp::Ori, 0xff00_ff00, -241, 0xffff_ff0f),
    (ImmediateOp::Ori, 0x0ff0_0ff0, 0x0f0, 0x0ff0_0ff0),
    (ImmediateOp::Andi, 0xff00_ff00, -241, 0xff00_ff00),
];

// A branch, what it compares, and whether it is taken.
const BRANCHES: [(BranchOp, u32, u32, bool); 14] = [
    (BranchOp::Beq, 0xffff_ffff, 0xffff_ffff, true),
    (BranchOp::Beq, 0x0000_0000, 0xffff_ffff, false),
    (BranchOp::Bne, 0x0000_0000, 0x0000_0001, true),
    (BranchOp::Bne, 0x0000_0001, 0x0000_0001, false),
    (BranchOp::Blt, 0xffff_fffe, 0xffff_ffff, true),
    (BranchOp::Blt, 0x8000_0000, 0x7fff_ffff, true),
    (BranchOp::Blt, 0x0000_0001, 0x0000_0001, false),
    (BranchOp::Bge, 0xffff_ffff, 0x8000_0000, true),
    (BranchOp::Bge, 0x8000_0000, 0x0000_0000, false),
    (BranchOp::Bge, 0x0000_0001, 0x0000_0001, true),
    (BranchOp::Bltu, 0xffff_fffe, 0xffff_ffff, true),
    (BranchOp::Bltu, 0x8000_0000, 0x7fff_ffff, false),
    (BranchOp::Bgeu, 0xffff_ffff, 0x0000_0000, true),
    (BranchOp::Bgeu, 0x7fff_ffff, 0x8000_0000, false),
];

// The program that loads a and b, which come after it, into t1 and t2, and carries out an instruction of them.
fn image_with(alloc: Global, a: u32, b: u32, inst: &Inst) -> Result<Image, AllocError>
    ensures { IfOk result (λ image. 0 < length image.entries) }
{
    // lui t0, 16; lw t1, 16(t0); lw t2, 20(t0)
    let words = vec![in alloc; 0x0001_02b7, 0x0102_a303, 0x0142_a383, encode(inst), a, b]?;
    image_of(alloc, words)
}

// a0 and pc after four steps, if there are four.
fn by_steps(alloc: Global, image: &Image) -> Result<Option<(u32, u32)>, AllocError>
    requires { 0 < length image.now.entries }
{
    let mut mach = Mach::new(alloc, image, 0)?;
    for _ in 0..4 {
        if mach.step(image.code()) != Ran::Ran {
            return Ok(None);
        }
    }
    Ok(Some((mach.reg(10), mach.pc())))
}

// The same after a run of four steps, which are lowered operations.
fn by_run(alloc: Global, image: &Image) -> Result<Option<(u32, u32)>, AllocError>
    requires { 0 < length image.now.entries }
{
    let mut mach = Mach::new(alloc, image, 0)?;
    if mach.run_on(image.code(), 4).0 != 4 {
        return Ok(None);
    }
    Ok(Some((mach.reg(10), mach.pc())))
}

// a0 and pc after the instruction of a in t1 and b in t2; none where steps and run differ.
fn after(alloc: Global, inst: &Inst, a: u32, b: u32) -> Result<Option<(u32, u32)>, AllocError> {
    let image = image_with(alloc, a, b, inst)?;
    let stepped = by_steps(alloc, &image)?;
    if by_run(alloc, &image)? != stepped {
        return Ok(None);
    }
    Ok(stepped)
}

fn of_registers(alloc: Global, op: RegisterOp, a: u32, b: u32) -> Result<Option<u32>, AllocError> {
    let inst = Inst::Op {
        op,
        rd: A0,
        rs1: T1,
        rs2: T2,
    };
    Ok(after(alloc, &inst, a, b)?.map(|(a0, _)| a0))
}

fn shifted(
    alloc: Global,
    op: ShiftOp,
    a: u32,
    amount: ShiftAmount,
) -> Result<Option<u32>, AllocError> {
    let inst = Inst::Shift {
        op,
        rd: A0,
        rs1: T1,
        amount,
    };
    Ok(after(alloc, &inst, a, 0)?.map(|(a0, _)| a0))
}

fn with_immediate(
    alloc: Global,
    op: ImmediateOp,
    a: u32,
    imm: Immediate,
) -> Result<Option<u32>, AllocError> {
    let inst = Inst::OpImm {
        op,
        rd: A0,
        rs1: T1,
        imm,
    };
    Ok(after(alloc, &inst, a, 0)?.map(|(a0, _)| a0))
}

// Whether a branch over the next word is taken.
fn takes(alloc: Global, op: BranchOp, a: u32, b: u32) -> Result<Option<bool>, AllocError> {
    let inst = Inst::Branch {
        op,
        rs1: T1,
        rs2: T2,
        offset: BranchOffset { value: 8 },
    };
    Ok(match after(alloc, &inst, a, b)? {
        Some((_, 0x0001_0014)) => Some(true),
        Some((_, 0x0001_0010)) => Some(false),
        _ => None,
    })
}

#[test]
fn operations_of_registers(rt: HostRuntime) -> Result<(), AllocError> {
    for (op, a, b, wanted) in &OF_REGISTERS {
        let result = of_registers(rt.alloc(), *op, *a, *b)?;
        assert_eq!(rt; result, Some(*wanted), "of {a:08x} and {b:08x}");
    }
    Ok(())
}

#[test]
fn shifts(rt: HostRuntime) -> Result<(), AllocError> {
    for &(op, a, bits, wanted) in &SHIFTS {
        assert!(rt; bits < 32);
        let result = shifted(rt.alloc(), op, a, ShiftAmount { bits })?;
        assert_eq!(rt; result, Some(wanted), "of {a:08x} by {bits}");
    }
    Ok(())
}

#[test]
fn operations_with_immediates(rt: HostRuntime) -> Result<(), AllocError> {
    for &(op, a, value, wanted) in &WITH_IMMEDIATES {
        assert!(rt; -2048 <= value && value <= 2047);
        let result = with_immediate(rt.alloc(), op, a, Immediate { value })?;
        assert_eq!(rt; result, Some(wanted), "of {a:08x} and {value}");
    }
    Ok(())
}

#[test]
fn branches(rt: HostRuntime) -> Result<(), AllocError> {
    for &(op, a, b, wanted) in &BRANCHES {
        let taken = takes(rt.alloc(), op, a, b)?;
        assert_eq!(rt; taken, Some(wanted), "of {a:08x} and {b:08x}");
    }
    Ok(())
}
