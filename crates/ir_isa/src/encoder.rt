//! From instructions to words.

ghost use Rattle.std.specs.Prelude.{◌≡◌, ◌<◌, ◌+◌, ◌*◌, ◌%◌, ◌^◌};
ghost use Rattle.ir_isa.specs.Fields.{sign_extended};
ghost use Rattle.ir_isa.specs.Code.{IsCode, IsU, IsJ, IsI, IsS, IsB, IsR};
ghost use Rattle.ir_isa.specs.Words.{word_of};

use crate::bits::field;
use crate::inst::{BranchOffset, Immediate, Inst, JumpOffset, Register, UpperImmediate};
use crate::rows::{branch_code, imm_code, load_code, reg_code, shift_code, store_code};

// The word with these fields.
fn with_fields(funct7: u32, rs2: u32, rs1: Register, funct3: u32, rd: u32, opcode: u32) -> u32
    requires seven { funct7 < 2 ^ 7 }
    requires two { rs2 < 2 ^ 5 }
    requires three { funct3 < 2 ^ 3 }
    requires dest { rd < 2 ^ 5 }
    requires code { opcode < 2 ^ 7 }
    ensures { result ≡ 2 ^ 25 * funct7 + 2 ^ 20 * rs2 + 2 ^ 15 * rs1.number + 2 ^ 12 * funct3 + 2 ^ 7 * rd + opcode }
{
    (funct7 << 25) + (rs2 << 20) + ((rs1.number as u32) << 15) + (funct3 << 12) + (rd << 7) + opcode
}

fn bits_of_12(imm: Immediate) -> u32
    ensures range { result < 2 ^ 12 }
    ensures value { sign_extended 12 result ≡ imm.value }
{
    if imm.value < 0 {
        (imm.value + 0x1000) as u32
    } else {
        imm.value as u32
    }
}

fn bits_of_13(offset: BranchOffset) -> u32
    ensures range { result < 2 ^ 13 }
    ensures even { result % 2 ≡ 0 }
    ensures value { sign_extended 13 result ≡ offset.value }
{
    if offset.value < 0 {
        (offset.value + 0x2000) as u32
    } else {
        offset.value as u32
    }
}

fn bits_of_21(offset: JumpOffset) -> u32
    ensures range { result < 2 ^ 21 }
    ensures even { result % 2 ≡ 0 }
    ensures value { sign_extended 21 result ≡ offset.value }
{
    if offset.value < 0 {
        (offset.value + 0x20_0000) as u32
    } else {
        offset.value as u32
    }
}

fn upper(rd: Register, imm: UpperImmediate, opcode: u32) -> u32
    requires { opcode < 2 ^ 7 }
    ensures { IsU result imm.value rd.number opcode }
{
    imm.value + ((rd.number as u32) << 7) + opcode
}

fn jump(rd: Register, offset: JumpOffset, opcode: u32) -> u32
    requires { opcode < 2 ^ 7 }
    ensures { IsJ result offset.value rd.number opcode }
{
    let bits = bits_of_21(offset);
    (field(bits, 20, 1) << 31)
        + (field(bits, 1, 10) << 21)
        + (field(bits, 11, 1) << 20)
        + (field(bits, 12, 8) << 12)
        + ((rd.number as u32) << 7)
        + opcode
}

fn immediate(imm: Immediate, rs1: Register, funct3: u32, rd: Register, opcode: u32) -> u32
    requires three { funct3 < 2 ^ 3 }
    requires code { opcode < 2 ^ 7 }
    ensures { IsI result imm.value rs1.number funct3 rd.number opcode }
{
    let bits = bits_of_12(imm);
    with_fields(
        bits >> 5,
        bits & 0x1f,
        rs1,
        funct3,
        rd.number as u32,
        opcode,
    )
}

fn store(imm: Immediate, rs2: Register, rs1: Register, funct3: u32, opcode: u32) -> u32
    requires three { funct3 < 2 ^ 3 }
    requires code { opcode < 2 ^ 7 }
    ensures { IsS result imm.value rs2.number rs1.number funct3 opcode }
{
    let bits = bits_of_12(imm);
    with_fields(
        bits >> 5,
        rs2.number as u32,
        rs1,
        funct3,
        bits & 0x1f,
        opcode,
    )
}

fn branch(offset: BranchOffset, rs2: Register, rs1: Register, funct3: u32, opcode: u32) -> u32
    requires three { funct3 < 2 ^ 3 }
    requires code { opcode < 2 ^ 7 }
    ensures { IsB result offset.value rs2.number rs1.number funct3 opcode }
{
    let bits = bits_of_13(offset);
    with_fields(
        (field(bits, 12, 1) << 6) + field(bits, 5, 6),
        rs2.number as u32,
        rs1,
        funct3,
        (field(bits, 1, 4) << 1) + field(bits, 11, 1),
        opcode,
    )
}

fn register(funct7: u32, rs2: u32, rs1: Register, funct3: u32, rd: Register, opcode: u32) -> u32
    requires seven { funct7 < 2 ^ 7 }
    requires two { rs2 < 2 ^ 5 }
    requires three { funct3 < 2 ^ 3 }
    requires code { opcode < 2 ^ 7 }
    ensures { IsR result funct7 rs2 rs1.number funct3 rd.number opcode }
{
    with_fields(funct7, rs2, rs1, funct3, rd.number as u32, opcode)
}

/// The word that is the instruction's code.
pub fn encode(inst: &Inst) -> u32
    ensures code { IsCode result inst.now }
    ensures word { result ≡ word_of inst.now }
{
    by_format(inst)
}

fn by_format(inst: &Inst) -> u32
    ensures { IsCode result inst.now }
{
    match *inst {
        Inst::Lui { rd, imm } => upper(rd, imm, 0b0110111),
        Inst::Auipc { rd, imm } => upper(rd, imm, 0b0010111),
        Inst::Jal { rd, offset } => jump(rd, offset, 0b1101111),
        Inst::Jalr { rd, rs1, imm } => immediate(imm, rs1, 0b000, rd, 0b1100111),
        Inst::Branch {
            op,
            rs1,
            rs2,
            offset,
        } => { branch(offset, rs2, rs1, branch_code(op), 0b1100011) }
        Inst::Load { op, rd, rs1, imm } => immediate(imm, rs1, load_code(op), rd, 0b0000011),
        Inst::Store { op, rs1, rs2, imm } => store(imm, rs2, rs1, store_code(op), 0b0100011),
        Inst::OpImm { op, rd, rs1, imm } => immediate(imm, rs1, imm_code(op), rd, 0b0010011),
        Inst::Shift {
            op,
            rd,
            rs1,
            amount,
        } => {
            let (funct7, funct3) = shift_code(op);
            register(funct7, amount.bits as u32, rs1, funct3, rd, 0b0010011)
        }
        Inst::Op { op, rd, rs1, rs2 } => {
            let (funct7, funct3) = reg_code(op);
            register(funct7, rs2.number as u32, rs1, funct3, rd, 0b0110011)
        }
        Inst::Fence { rd, rs1, imm } => immediate(imm, rs1, 0b000, rd, 0b0001111),
        Inst::Ecall => 0x0000_0073,
        Inst::Ebreak => 0x0010_0073,
    }
}
