//! Instructions, whose types keep each field in its range.

ghost use Rattle.std.specs.Prelude.{◌≡◌, ◌<◌, ◌%◌, ◌^◌, ◌≤ℤ◌, pos, negsuc};
ghost use Rattle.ir_isa.specs.Even.{IsEven};

/// A register, x0 to x31.
#[derive(Clone, Copy, Debug, PartialEq, Eq)]
pub struct Register {
    pub number: u8,
    pub ghost in_range: { number < 32 },
}

/// A signed immediate of twelve bits, -2048 to 2047.
#[derive(Clone, Copy, Debug, PartialEq, Eq)]
pub struct Immediate {
    pub value: i32,
    pub ghost low: { negsuc 2047 ≤ℤ value },
    pub ghost high: { value ≤ℤ pos 2047 },
}

/// How far a branch goes in bytes: an even distance from -4096 to 4094.
#[derive(Clone, Copy, Debug, PartialEq, Eq)]
pub struct BranchOffset {
    pub value: i32,
    pub ghost low: { negsuc 4095 ≤ℤ value },
    pub ghost high: { value ≤ℤ pos 4094 },
    pub ghost even: { IsEven value },
}

/// How far JAL goes in bytes: an even distance from -1048576 to 1048574.
#[derive(Clone, Copy, Debug, PartialEq, Eq)]
pub struct JumpOffset {
    pub value: i32,
    pub ghost low: { negsuc 1048575 ≤ℤ value },
    pub ghost high: { value ≤ℤ pos 1048574 },
    pub ghost even: { IsEven value },
}

/// The upper twenty bits of a value whose lower bits are 0.
#[derive(Clone, Copy, Debug, PartialEq, Eq)]
pub struct UpperImmediate {
    pub value: u32,
    pub ghost in_range: { value < 2 ^ 32 },
    pub ghost whole: { value % 2 ^ 12 ≡ 0 },
}

/// How many bits a shift by an immediate goes, below 32.
#[derive(Clone, Copy, Debug, PartialEq, Eq)]
pub struct ShiftAmount {
    pub bits: u8,
    pub ghost in_range: { bits < 32 },
}

/// When a branch is taken: by comparing two registers, signed but for `Bltu` and `Bgeu`.
#[derive(Clone, Copy, Debug, PartialEq, Eq)]
pub enum BranchOp {
    Beq,
    Bne,
    Blt,
    Bge,
    Bltu,
    Bgeu,
}

/// What a load reads: a byte, a half word or a word; `Lbu` and `Lhu` without a sign.
#[derive(Clone, Copy, Debug, PartialEq, Eq)]
pub enum LoadOp {
    Lb,
    Lh,
    Lw,
    Lbu,
    Lhu,
}

/// What a store writes: a byte, a half word or a word.
#[derive(Clone, Copy, Debug, PartialEq, Eq)]
pub enum StoreOp {
    Sb,
    Sh,
    Sw,
}

/// What an instruction does with a register and an immediate.
#[derive(Clone, Copy, Debug, PartialEq, Eq)]
pub enum ImmediateOp {
    Addi,
    Slti,
    Sltiu,
    Xori,
    Ori,
    Andi,
}

/// What a shift by an immediate does: left, right, or right with copies of the sign.
#[derive(Clone, Copy, Debug, PartialEq, Eq)]
pub enum ShiftOp {
    Slli,
    Srli,
    Srai,
}

/// What an instruction does with two registers.
#[derive(Clone, Copy, Debug, PartialEq, Eq)]
pub enum RegisterOp {
    Add,
    Sub,
    Sll,
    Slt,
    Sltu,
    Xor,
    Srl,
    Sra,
    Or,
    And,
    Mul,
    Mulh,
    Mulhsu,
    Mulhu,
    Div,
    Divu,
    Rem,
    Remu,
}

/// An instruction of RV32IM, by format; `rd` is written, `rs1` and `rs2` are read.
#[derive(Clone, Copy, Debug, PartialEq, Eq)]
pub enum Inst {
    Lui {
        rd: Register,
        imm: UpperImmediate,
    },
    Auipc {
        rd: Register,
        imm: UpperImmediate,
    },
    Jal {
        rd: Register,
        offset: JumpOffset,
    },
    Jalr {
        rd: Register,
        rs1: Register,
        imm: Immediate,
    },
    Branch {
        op: BranchOp,
        rs1: Register,
        rs2: Register,
        offset: BranchOffset,
    },
    Load {
        op: LoadOp,
        rd: Register,
        rs1: Register,
        imm: Immediate,
    },
    Store {
        op: StoreOp,
        rs1: Register,
        rs2: Register,
        imm: Immediate,
    },
    OpImm {
        op: ImmediateOp,
        rd: Register,
        rs1: Register,
        imm: Immediate,
    },
    Shift {
        op: ShiftOp,
        rd: Register,
        rs1: Register,
        amount: ShiftAmount,
    },
    Op {
        op: RegisterOp,
        rd: Register,
        rs1: Register,
        rs2: Register,
    },
    Fence {
        rd: Register,
        rs1: Register,
        imm: Immediate,
    },
    Ecall,
    Ebreak,
}
