//! The text of a word.

ghost use Rattle.std.specs.Prelude.{◌≡◌, ◌≤◌, ◌<◌, [], ◌∷◌, ◌++◌, ◌+◌, ◌/◌, ◌%◌, ◌^◌, IfOk, codes};
ghost use Rattle.std.specs.String.{string_bytes};
ghost use Rattle.std.specs.Fmt.{signed_decimal};
ghost use Rattle.std.specs.Char.{digit_char};
ghost use Rattle.ir_isa.specs.Fields.{register_name, low_bits};
ghost use Rattle.ir_disasm.specs.Printed.{hex, two, three, distance, far, address, instruction_text, text_of};

use crate::names::{
    branch_name, immediate_name, load_name, operation_name, shift_name, store_name,
};
use ir_isa::{Immediate, Inst, Register, UpperImmediate, decode, reg_name};
use itoa::Buffer;
use std::alloc::{AllocError, Global};

fn digit(value: u32) -> &'static str
    requires { value < 16 }
    ensures { result.now ≡ digit_char value ∷ [] }
{
    match value {
        0 => "0",
        1 => "1",
        2 => "2",
        3 => "3",
        4 => "4",
        5 => "5",
        6 => "6",
        7 => "7",
        8 => "8",
        9 => "9",
        10 => "a",
        11 => "b",
        12 => "c",
        13 => "d",
        14 => "e",
        _ => "f",
    }
}

// The hexadecimal digit at `place`, counted from 0 at the low end.
#[tactic(auto, using(crate::proofs::Digits::power_of_16_bounds))]
fn digit_at(number: u32, place: u32) -> &'static str
    requires { place < 8 }
    ensures { result.now ≡ digit_char (number / 16 ^ place % 16) ∷ [] }
{
    digit(number / 16_u32.pow(place) % 16)
}

// The lowest `count` hexadecimal digits of a number, the highest of them first.
fn digits(alloc: Global, count: u32, number: u32) -> Result<String, AllocError>
    requires { count ≤ 8 }
    ensures { IfOk result (λ s. string_bytes s ≡ hex count number) }
{
    let mut text = String::new(alloc);
    let mut left = count;
    while left > 0 {
        left -= 1;
        text.push_str(digit_at(number, left))?;
    }
    Ok(text)
}

fn hex(alloc: Global, count: u32, number: u32) -> Result<String, AllocError>
    requires { count ≤ 8 }
    ensures { IfOk result (λ s. string_bytes s ≡ codes "0x" ++ hex count number) }
{
    let digits = digits(alloc, count, number)?;
    format!(in alloc; "0x{digits}")
}

fn two(alloc: Global, name: &str, a: &str, b: &str) -> Result<String, AllocError>
    ensures { IfOk result (λ s. string_bytes s ≡ two name.now a.now b.now) }
{
    format!(in alloc; "{name} {a}, {b}")
}

fn three(alloc: Global, name: &str, a: &str, b: &str, c: &str) -> Result<String, AllocError>
    ensures { IfOk result (λ s. string_bytes s ≡ three name.now a.now b.now c.now) }
{
    format!(in alloc; "{name} {a}, {b}, {c}")
}

fn distance(alloc: Global, offset: i32) -> Result<String, AllocError>
    ensures { IfOk result (λ s. string_bytes s ≡ distance offset) }
{
    let size = offset.unsigned_abs();
    if offset < 0 {
        format!(in alloc; ".-{size}")
    } else {
        format!(in alloc; ".+{size}")
    }
}

// The address that lies so far from pc.
fn target(pc: u32, offset: i32) -> u32
    ensures { result ≡ (pc + low_bits 32 offset) % 2 ^ 32 }
{
    if offset < 0 {
        pc.wrapping_sub(offset.unsigned_abs())
    } else {
        pc.wrapping_add(offset as u32)
    }
}

fn with_comment(alloc: Global, text: &str, comment: &str) -> Result<String, AllocError>
    ensures { IfOk result (λ s. string_bytes s ≡ text.now ++ (codes " # " ++ comment.now)) }
{
    format!(in alloc; "{text} # {comment}")
}

// How far, and the address of it.
fn far(alloc: Global, pc: u32, offset: i32) -> Result<String, AllocError>
    ensures { IfOk result (λ s. string_bytes s ≡ far pc offset) }
{
    let distance = distance(alloc, offset)?;
    let address = digits(alloc, 8, target(pc, offset))?;
    Ok(with_comment(alloc, &distance, &address)?)
}

fn address(alloc: Global, imm: Immediate, base: Register) -> Result<String, AllocError>
    ensures { IfOk result (λ s. string_bytes s ≡ address imm.value base.number) }
{
    let offset = imm.value;
    let base = reg_name(base.number);
    format!(in alloc; "{offset}({base})")
}

fn upper(alloc: Global, name: &str, rd: Register, imm: UpperImmediate) -> Result<String, AllocError>
    ensures { IfOk result (λ s. string_bytes s ≡ two name.now (register_name rd.number) (codes "0x" ++ hex 5 (imm.value / 2 ^ 12))) }
{
    let bits = hex(alloc, 5, imm.value >> 12)?;
    two(alloc, name, reg_name(rd.number), &bits)
}

fn at_address(
    alloc: Global,
    name: &str,
    register: Register,
    imm: Immediate,
    base: Register,
) -> Result<String, AllocError>
    ensures { IfOk result (λ s. string_bytes s ≡ two name.now (register_name register.number) (address imm.value base.number)) }
{
    let address = address(alloc, imm, base)?;
    two(alloc, name, reg_name(register.number), &address)
}

// Three operands, of which the last is a number.
fn with_number(
    alloc: Global,
    name: &str,
    rd: Register,
    rs1: Register,
    number: i32,
) -> Result<String, AllocError>
    ensures { IfOk result (λ s. string_bytes s ≡ three name.now (register_name rd.number) (register_name rs1.number) (signed_decimal number)) }
{
    let mut buffer = Buffer::new();
    let text = buffer.format(number);
    three(alloc, name, reg_name(rd.number), reg_name(rs1.number), text)
}

fn jump(alloc: Global, pc: u32, rd: Register, offset: i32) -> Result<String, AllocError>
    ensures { IfOk result (λ s. string_bytes s ≡ two (codes "jal") (register_name rd.number) (far pc offset)) }
{
    let target = far(alloc, pc, offset)?;
    two(alloc, "jal", reg_name(rd.number), &target)
}

fn branch(
    alloc: Global,
    pc: u32,
    name: &str,
    rs1: Register,
    rs2: Register,
    offset: i32,
) -> Result<String, AllocError>
    ensures { IfOk result (λ s. string_bytes s ≡ three name.now (register_name rs1.number) (register_name rs2.number) (far pc offset)) }
{
    let target = far(alloc, pc, offset)?;
    three(
        alloc,
        name,
        reg_name(rs1.number),
        reg_name(rs2.number),
        &target,
    )
}

fn registers(
    alloc: Global,
    name: &str,
    rd: Register,
    rs1: Register,
    rs2: Register,
) -> Result<String, AllocError>
    ensures { IfOk result (λ s. string_bytes s ≡ three name.now (register_name rd.number) (register_name rs1.number) (register_name rs2.number)) }
{
    let (rd, rs1, rs2) = (
        reg_name(rd.number),
        reg_name(rs1.number),
        reg_name(rs2.number),
    );
    three(alloc, name, rd, rs1, rs2)
}

fn printed(alloc: Global, pc: u32, inst: Inst) -> Result<String, AllocError>
    ensures { IfOk result (λ s. string_bytes s ≡ instruction_text pc inst) }
{
    match inst {
        Inst::Lui { rd, imm } => upper(alloc, "lui", rd, imm),
        Inst::Auipc { rd, imm } => upper(alloc, "auipc", rd, imm),
        Inst::Jal { rd, offset } => jump(alloc, pc, rd, offset.value),
        Inst::Jalr { rd, rs1, imm } => at_address(alloc, "jalr", rd, imm, rs1),
        Inst::Branch {
            op,
            rs1,
            rs2,
            offset,
        } => branch(alloc, pc, branch_name(op), rs1, rs2, offset.value),
        Inst::Load { op, rd, rs1, imm } => at_address(alloc, load_name(op), rd, imm, rs1),
        Inst::Store { op, rs1, rs2, imm } => at_address(alloc, store_name(op), rs2, imm, rs1),
        Inst::OpImm { op, rd, rs1, imm } => with_number(
            alloc,
            immediate_name(op),
            rd,
            rs1,
            imm.value,
        ),
        Inst::Shift {
            op,
            rd,
            rs1,
            amount,
        } => with_number(alloc, shift_name(op), rd, rs1, amount.bits as i32),
        Inst::Op { op, rd, rs1, rs2 } => registers(alloc, operation_name(op), rd, rs1, rs2),
        Inst::Fence { rd, rs1, imm } => with_number(alloc, "fence", rd, rs1, imm.value & 0xfff),
        Inst::Ecall => String::from_str(alloc, "ecall"),
        Inst::Ebreak => String::from_str(alloc, "ebreak"),
    }
}

/// The text of the word at `pc`: one statement of the assembler's, which gives the word again.
///
/// Branches and jumps have their distance and, as a comment, the address that they go to; a word that is no instruction is a `.word`.
///
/// # Errors
/// Out of memory.
pub fn disassemble(alloc: Global, word: u32, pc: u32) -> Result<String, AllocError>
    ensures { IfOk result (λ s. string_bytes s ≡ text_of pc word) }
{
    match decode(word) {
        Ok(inst) => printed(alloc, pc, inst),
        Err(_) => {
            let digits = hex(alloc, 8, word)?;
            format!(in alloc; ".word {digits}")
        }
    }
}
