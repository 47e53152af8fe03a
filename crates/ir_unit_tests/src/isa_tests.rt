//! Words that were put together by hand from the manual's drawings.

use crate::registers::{A0, RA, SP, T0, T1, T2, ZERO};
use ir_isa::{
    BranchOffset, BranchOp, Illegal, Immediate, ImmediateOp, Inst, JumpOffset, LoadOp, RegisterOp,
    ShiftAmount, ShiftOp, StoreOp, UpperImmediate, decode, encode, reg_name,
};

// One word of each format.
const WORDS: [(u32, Inst); 13] = [
    (
        0x1234_5537,
        Inst::Lui {
            rd: A0,
            imm: UpperImmediate { value: 0x1234_5000 },
        },
    ),
    (
        0x1234_5517,
        Inst::Auipc {
            rd: A0,
            imm: UpperImmediate { value: 0x1234_5000 },
        },
    ),
    (
        0xffdf_f0ef,
        Inst::Jal {
            rd: RA,
            offset: JumpOffset { value: -4 },
        },
    ),
    (
        0x0000_80e7,
        Inst::Jalr {
            rd: RA,
            rs1: RA,
            imm: Immediate { value: 0 },
        },
    ),
    (
        0xfe62_9ee3,
        Inst::Branch {
            op: BranchOp::Bne,
            rs1: T0,
            rs2: T1,
            offset: BranchOffset { value: -4 },
        },
    ),
    (
        0xff81_2283,
        Inst::Load {
            op: LoadOp::Lw,
            rd: T0,
            rs1: SP,
            imm: Immediate { value: -8 },
        },
    ),
    (
        0xfe51_2c23,
        Inst::Store {
            op: StoreOp::Sw,
            rs1: SP,
            rs2: T0,
            imm: Immediate { value: -8 },
        },
    ),
    (
        0x0050_0093,
        Inst::OpImm {
            op: ImmediateOp::Addi,
            rd: RA,
            rs1: ZERO,
            imm: Immediate { value: 5 },
        },
    ),
    (
        0x41f5_5513,
        Inst::Shift {
            op: ShiftOp::Srai,
            rd: A0,
            rs1: A0,
            amount: ShiftAmount { bits: 31 },
        },
    ),
    (
        0x0273_02b3,
        Inst::Op {
            op: RegisterOp::Mul,
            rd: T0,
            rs1: T1,
            rs2: T2,
        },
    ),
    (
        0x0ff0_000f,
        Inst::Fence {
            rd: ZERO,
            rs1: ZERO,
            imm: Immediate { value: 0xff },
        },
    ),
    (0x0000_0073, Inst::Ecall),
    (0x0010_0073, Inst::Ebreak),
];

// Whether the word is the instruction's, and the instruction the word's.
fn belong(word: u32, inst: &Inst) -> bool {
    decode(word) == Ok(*inst) && encode(inst) == word
}

#[test]
fn words_and_instructions(rt: HostRuntime) {
    for (word, inst) in &WORDS {
        assert!(rt; belong(*word, inst), "of {word:08x}");
    }
}

// A shift by an immediate with a foreign funct7, and the words of zeros and of ones.
#[test]
fn words_of_no_instruction(rt: HostRuntime) {
    for word in [0x0200_9093, 0x0000_0000, 0xffff_ffff] {
        assert!(rt; decode(word) == Err(Illegal));
    }
}

#[test]
fn names(rt: HostRuntime) {
    assert_eq!(rt; reg_name(0), "zero");
    assert_eq!(rt; reg_name(10), "a0");
    assert_eq!(rt; reg_name(31), "t6");
}
