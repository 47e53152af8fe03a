//! From words to instructions.

ghost use Rattle.std.specs.Prelude.{◌≡◌, ◌<◌, ◌/◌, ◌%◌, ◌^◌, IfOk, IfErr, Ok};
ghost use Rattle.std.specs.Result.{result_ok};
ghost use Rattle.ir_isa.specs.Fields.{bits, sign_extended};
ghost use Rattle.ir_isa.specs.Immediates.{imm_i, imm_s, imm_b, imm_u, imm_j};
ghost use Rattle.ir_isa.specs.Decoded.{instruction_of};
ghost use Rattle.ir_isa.specs.Code.{IsCode};
ghost use Rattle.ir_isa.specs.declared.inst.Inst.{Inst};

use crate::bits::field;
use crate::inst::{
    BranchOffset, Immediate, Inst, JumpOffset, Register, ShiftAmount, UpperImmediate,
};
use crate::rows::{branch_op, imm_op, load_op, reg_op, shift_op, store_op};

/// The answer to a word that is the code of no instruction.
#[derive(Clone, Copy, Debug, PartialEq, Eq)]
pub struct Illegal;

fn reg(word: u32, low: u32) -> Register
    requires { low < 32 }
    ensures { result.number ≡ word / 2 ^ low % 2 ^ 5 }
{
    Register {
        number: field(word, low, 5) as u8,
    }
}

// The number that twelve bits encode, the highest being its sign.
fn signed_12(field: u32) -> Immediate
    requires { field < 2 ^ 12 }
    ensures { result.value ≡ sign_extended 12 field }
{
    let value = field as i32;
    Immediate {
        value: if value < 0x800 { value } else { value - 0x1000 },
    }
}

fn signed_13(field: u32) -> BranchOffset
    requires fits { field < 2 ^ 13 }
    requires even { field % 2 ≡ 0 }
    ensures { result.value ≡ sign_extended 13 field }
{
    let value = field as i32;
    BranchOffset {
        value: if value < 0x1000 {
            value
        } else {
            value - 0x2000
        },
    }
}

fn signed_21(field: u32) -> JumpOffset
    requires fits { field < 2 ^ 21 }
    requires even { field % 2 ≡ 0 }
    ensures { result.value ≡ sign_extended 21 field }
{
    let value = field as i32;
    JumpOffset {
        value: if value < 0x10_0000 {
            value
        } else {
            value - 0x20_0000
        },
    }
}

fn read_i(word: u32) -> Immediate
    ensures { result.value ≡ imm_i word }
{
    signed_12(field(word, 20, 12))
}

fn read_s(word: u32) -> Immediate
    ensures { result.value ≡ imm_s word }
{
    signed_12((field(word, 25, 7) << 5) + field(word, 7, 5))
}

fn read_b(word: u32) -> BranchOffset
    ensures { result.value ≡ imm_b word }
{
    signed_13(
        (field(word, 31, 1) << 12)
            + (field(word, 7, 1) << 11)
            + (field(word, 25, 6) << 5)
            + (field(word, 8, 4) << 1),
    )
}

fn read_u(word: u32) -> UpperImmediate
    ensures { result.value ≡ imm_u word }
{
    UpperImmediate {
        value: field(word, 12, 20) << 12,
    }
}

fn read_j(word: u32) -> JumpOffset
    ensures { result.value ≡ imm_j word }
{
    signed_21(
        (field(word, 31, 1) << 20)
            + (field(word, 12, 8) << 12)
            + (field(word, 20, 1) << 11)
            + (field(word, 21, 10) << 1),
    )
}

/// The instruction whose code the word is.
///
/// # Errors
/// `Illegal` where the word is the code of no instruction.
pub fn decode(word: u32) -> Result<Inst, Illegal>
    ensures found { IfOk result (λ i. IsCode word i) }
    ensures only { (i : Inst) → IsCode word i → result ≡ Ok i }
    ensures exact { result_ok result ≡ instruction_of word }
{
    by_opcode(word)
}

fn by_opcode(word: u32) -> Result<Inst, Illegal>
    ensures found { IfOk result (λ i. IsCode word i) }
    ensures illegal { IfErr result (λ _. (i : Inst) → IsCode word i → ⊥) }
{
    let rd = reg(word, 7);
    let rs1 = reg(word, 15);
    let funct3 = field(word, 12, 3);
    let imm = read_i(word);
    match field(word, 0, 7) {
        0b0110111 => Ok(Inst::Lui {
            rd,
            imm: read_u(word),
        }),
        0b0010111 => Ok(Inst::Auipc {
            rd,
            imm: read_u(word),
        }),
        0b1101111 => Ok(Inst::Jal {
            rd,
            offset: read_j(word),
        }),
        0b1100111 if funct3 == 0 => Ok(Inst::Jalr { rd, rs1, imm }),
        0b1100011 => branch(word),
        0b0000011 => load(word),
        0b0100011 => store(word),
        0b0010011 => with_immediate(word),
        0b0110011 => of_registers(word),
        0b0001111 if funct3 == 0 => Ok(Inst::Fence { rd, rs1, imm }),
        _ if word == 0x0000_0073 => Ok(Inst::Ecall),
        _ if word == 0x0010_0073 => Ok(Inst::Ebreak),
        _ => Err(Illegal),
    }
}

// A branch, by its funct3.
fn branch(word: u32) -> Result<Inst, Illegal>
    requires { bits 6 0 word ≡ 0b1100011 }
    ensures found { IfOk result (λ i. IsCode word i) }
    ensures illegal { IfErr result (λ _. (i : Inst) → IsCode word i → ⊥) }
{
    let op = branch_op(field(word, 12, 3)).ok_or(Illegal)?;
    let (rs1, rs2) = (reg(word, 15), reg(word, 20));
    Ok(Inst::Branch {
        op,
        rs1,
        rs2,
        offset: read_b(word),
    })
}

// A load, by its funct3.
fn load(word: u32) -> Result<Inst, Illegal>
    requires { bits 6 0 word ≡ 0b0000011 }
    ensures found { IfOk result (λ i. IsCode word i) }
    ensures illegal { IfErr result (λ _. (i : Inst) → IsCode word i → ⊥) }
{
    let op = load_op(field(word, 12, 3)).ok_or(Illegal)?;
    let (rd, rs1) = (reg(word, 7), reg(word, 15));
    Ok(Inst::Load {
        op,
        rd,
        rs1,
        imm: read_i(word),
    })
}

// A store, by its funct3.
fn store(word: u32) -> Result<Inst, Illegal>
    requires { bits 6 0 word ≡ 0b0100011 }
    ensures found { IfOk result (λ i. IsCode word i) }
    ensures illegal { IfErr result (λ _. (i : Inst) → IsCode word i → ⊥) }
{
    let op = store_op(field(word, 12, 3)).ok_or(Illegal)?;
    let (rs1, rs2) = (reg(word, 15), reg(word, 20));
    Ok(Inst::Store {
        op,
        rs1,
        rs2,
        imm: read_s(word),
    })
}

// An operation with an immediate, by its funct3, or else a shift, by its funct7 too.
fn with_immediate(word: u32) -> Result<Inst, Illegal>
    requires { bits 6 0 word ≡ 0b0010011 }
    ensures found { IfOk result (λ i. IsCode word i) }
    ensures illegal { IfErr result (λ _. (i : Inst) → IsCode word i → ⊥) }
{
    let (rd, rs1) = (reg(word, 7), reg(word, 15));
    let funct3 = field(word, 12, 3);
    if let Some(op) = imm_op(funct3) {
        return Ok(Inst::OpImm {
            op,
            rd,
            rs1,
            imm: read_i(word),
        });
    }
    let op = shift_op(field(word, 25, 7), funct3).ok_or(Illegal)?;
    let amount = ShiftAmount {
        bits: field(word, 20, 5) as u8,
    };
    Ok(Inst::Shift {
        op,
        rd,
        rs1,
        amount,
    })
}

// An operation of two registers, by its funct7 and funct3.
fn of_registers(word: u32) -> Result<Inst, Illegal>
    requires { bits 6 0 word ≡ 0b0110011 }
    ensures found { IfOk result (λ i. IsCode word i) }
    ensures illegal { IfErr result (λ _. (i : Inst) → IsCode word i → ⊥) }
{
    let op = reg_op(field(word, 25, 7), field(word, 12, 3)).ok_or(Illegal)?;
    let (rd, rs1, rs2) = (reg(word, 7), reg(word, 15), reg(word, 20));
    Ok(Inst::Op { op, rd, rs1, rs2 })
}
