//! What a statement places.

ghost use Rattle.std.specs.Prelude.{◌≡◌, ◌==◌, length, if◌then◌else◌, IfOk};
ghost use Rattle.ir_isa.specs.Fields.{low_bits};
ghost use Rattle.ir_image.specs.declared.form.ImageForm.{ImageForm};
ghost use Rattle.ir_asm.specs.Items.{instruction, li_words, values, source_item};
ghost use Rattle.ir_asm.specs.declared.form.Form.TheVariants.{Registers, Immediates, Shifts, Loads, JumpsTo, Stores, Branches, Jumps};
ghost use Rattle.ir_asm.specs.declared.form.Form.TheVariants.{LoadsUpper, AddsUpper, Fences, DoesNothing, LoadsValue, Enlarges, Sections};
ghost use Rattle.ir_asm.specs.declared.form.Form.TheVariants.{Space, Thread, Objects, Object};
ghost use Rattle.ir_asm.specs.declared.item.Item.TheVariants.{Nothing};

use crate::fields::{amount, branch_offset, immediate, jump_offset, low_bits, register, upper};
use crate::form::{Form, Section};
use crate::item::{ByteList, Item, Name, Operand, WordList};
use ir_isa::{BranchOp, ImmediateOp, Inst, LoadOp, Register, RegisterOp, ShiftOp, StoreOp, encode};
use std::alloc::{AllocError, Global};

// The code of one instruction.
fn instruction(alloc: Global, inst: Inst) -> Result<Item, AllocError>
    ensures { IfOk result (λ i. i ≡ instruction inst) }
{
    let words = Vec::from_slice(alloc, &[encode(&inst)])?;
    Ok(Item::Code(WordList { words }))
}

fn copy_name(alloc: Global, name: &Name) -> Result<Name, AllocError>
    ensures { IfOk result (λ n. n ≡ name.now) }
{
    let text = Vec::from_slice(alloc, name.text.as_slice())?;
    Ok(Name { text })
}

fn registers_item(alloc: Global, op: RegisterOp, operands: &[Operand]) -> Result<Item, AllocError>
    ensures { IfOk result (λ i. i ≡ source_item (Registers op) operands.now) }
{
    match operands {
        [Operand::Index(rd), Operand::Index(rs1), Operand::Index(rs2)] => {
            let (rd, rs1, rs2) = (*rd, *rs1, *rs2);
            instruction(alloc, Inst::Op { op, rd, rs1, rs2 })
        }
        _ => Ok(Item::Nothing),
    }
}

fn immediates_item(alloc: Global, op: ImmediateOp, operands: &[Operand]) -> Result<Item, AllocError>
    ensures { IfOk result (λ i. i ≡ source_item (Immediates op) operands.now) }
{
    match operands {
        [
            Operand::Index(rd),
            Operand::Index(rs1),
            Operand::Integer(imm),
        ] => {
            let (rd, rs1, imm) = (*rd, *rs1, immediate(*imm));
            instruction(alloc, Inst::OpImm { op, rd, rs1, imm })
        }
        _ => Ok(Item::Nothing),
    }
}

fn shifts_item(alloc: Global, op: ShiftOp, operands: &[Operand]) -> Result<Item, AllocError>
    ensures { IfOk result (λ i. i ≡ source_item (Shifts op) operands.now) }
{
    match operands {
        [
            Operand::Index(rd),
            Operand::Index(rs1),
            Operand::Integer(count),
        ] => {
            let (rd, rs1, amount) = (*rd, *rs1, amount(*count));
            instruction(
                alloc,
                Inst::Shift {
                    op,
                    rd,
                    rs1,
                    amount,
                },
            )
        }
        _ => Ok(Item::Nothing),
    }
}

fn loads_item(alloc: Global, op: LoadOp, operands: &[Operand]) -> Result<Item, AllocError>
    ensures { IfOk result (λ i. i ≡ source_item (Loads op) operands.now) }
{
    match operands {
        [Operand::Index(rd), Operand::Offset(imm, rs1)] => {
            let (rd, rs1, imm) = (*rd, *rs1, immediate(*imm));
            instruction(alloc, Inst::Load { op, rd, rs1, imm })
        }
        _ => Ok(Item::Nothing),
    }
}

fn jumps_to_item(alloc: Global, operands: &[Operand]) -> Result<Item, AllocError>
    ensures { IfOk result (λ i. i ≡ source_item JumpsTo operands.now) }
{
    match operands {
        [Operand::Index(rd), Operand::Offset(imm, rs1)] => {
            let (rd, rs1, imm) = (*rd, *rs1, immediate(*imm));
            instruction(alloc, Inst::Jalr { rd, rs1, imm })
        }
        _ => Ok(Item::Nothing),
    }
}

fn stores_item(alloc: Global, op: StoreOp, operands: &[Operand]) -> Result<Item, AllocError>
    ensures { IfOk result (λ i. i ≡ source_item (Stores op) operands.now) }
{
    match operands {
        [Operand::Index(rs2), Operand::Offset(imm, rs1)] => {
            let (rs1, rs2, imm) = (*rs1, *rs2, immediate(*imm));
            instruction(alloc, Inst::Store { op, rs1, rs2, imm })
        }
        _ => Ok(Item::Nothing),
    }
}

fn branches_item(alloc: Global, op: BranchOp, operands: &[Operand]) -> Result<Item, AllocError>
    ensures { IfOk result (λ i. i ≡ source_item (Branches op) operands.now) }
{
    match operands {
        [
            Operand::Index(rs1),
            Operand::Index(rs2),
            Operand::Integer(distance),
        ] => {
            let (rs1, rs2, offset) = (*rs1, *rs2, branch_offset(*distance));
            instruction(
                alloc,
                Inst::Branch {
                    op,
                    rs1,
                    rs2,
                    offset,
                },
            )
        }
        [
            Operand::Index(rs1),
            Operand::Index(rs2),
            Operand::Symbol(label),
        ] => { Ok(Item::BranchTo(op, *rs1, *rs2, copy_name(alloc, label)?)) }
        _ => Ok(Item::Nothing),
    }
}

fn jumps_item(alloc: Global, operands: &[Operand]) -> Result<Item, AllocError>
    ensures { IfOk result (λ i. i ≡ source_item Jumps operands.now) }
{
    match operands {
        [Operand::Index(rd), Operand::Integer(distance)] => {
            let (rd, offset) = (*rd, jump_offset(*distance));
            instruction(alloc, Inst::Jal { rd, offset })
        }
        [Operand::Index(rd), Operand::Symbol(label)] => {
            Ok(Item::JumpTo(*rd, copy_name(alloc, label)?))
        }
        _ => Ok(Item::Nothing),
    }
}

fn loads_upper_item(alloc: Global, operands: &[Operand]) -> Result<Item, AllocError>
    ensures { IfOk result (λ i. i ≡ source_item LoadsUpper operands.now) }
{
    match operands {
        [Operand::Index(rd), Operand::Integer(number)] => {
            let (rd, imm) = (*rd, upper(*number));
            instruction(alloc, Inst::Lui { rd, imm })
        }
        _ => Ok(Item::Nothing),
    }
}

fn adds_upper_item(alloc: Global, operands: &[Operand]) -> Result<Item, AllocError>
    ensures { IfOk result (λ i. i ≡ source_item AddsUpper operands.now) }
{
    match operands {
        [Operand::Index(rd), Operand::Integer(number)] => {
            let (rd, imm) = (*rd, upper(*number));
            instruction(alloc, Inst::Auipc { rd, imm })
        }
        _ => Ok(Item::Nothing),
    }
}

fn fences_item(alloc: Global, operands: &[Operand]) -> Result<Item, AllocError>
    ensures { IfOk result (λ i. i ≡ source_item Fences operands.now) }
{
    match operands {
        [] => {
            let (rd, rs1, imm) = (register(0), register(0), immediate(0x0ff));
            instruction(alloc, Inst::Fence { rd, rs1, imm })
        }
        [
            Operand::Index(rd),
            Operand::Index(rs1),
            Operand::Integer(imm),
        ] => {
            let (rd, rs1, imm) = (*rd, *rs1, immediate(*imm));
            instruction(alloc, Inst::Fence { rd, rs1, imm })
        }
        _ => Ok(Item::Nothing),
    }
}

fn does_nothing_item(alloc: Global, operands: &[Operand]) -> Result<Item, AllocError>
    ensures { IfOk result (λ i. i ≡ source_item DoesNothing operands.now) }
{
    let (op, rd, rs1, imm) = (ImmediateOp::Addi, register(0), register(0), immediate(0));
    fixed_item(alloc, Inst::OpImm { op, rd, rs1, imm }, operands)
}

/// The two words of li: the upper twenty bits, rounded so that the signed lower twelve make up the rest.
pub fn load_words(alloc: Global, rd: Register, value: u32) -> Result<Vec<u32>, AllocError>
    ensures { IfOk result (λ v. v.items ≡ li_words rd value) }
{
    let rounded = (value as u64 + 0x800) >> 12;
    let first = Inst::Lui {
        rd,
        imm: upper(rounded as i64),
    };
    let second = Inst::OpImm {
        op: ImmediateOp::Addi,
        rd,
        rs1: rd,
        imm: immediate(value as i64),
    };
    Vec::from_slice(alloc, &[encode(&first), encode(&second)])
}

fn loads_value_item(alloc: Global, operands: &[Operand]) -> Result<Item, AllocError>
    ensures { IfOk result (λ i. i ≡ source_item LoadsValue operands.now) }
{
    match operands {
        [Operand::Index(rd), Operand::Integer(value)] => {
            let words = load_words(alloc, *rd, low_bits(32, *value))?;
            Ok(Item::Code(WordList { words }))
        }
        [Operand::Index(rd), Operand::Symbol(label)] => {
            Ok(Item::LoadAddress(*rd, copy_name(alloc, label)?))
        }
        _ => Ok(Item::Nothing),
    }
}

fn words_of(alloc: Global, operands: &[Operand]) -> Result<WordList, AllocError>
    ensures { IfOk result (λ w. w ≡ values 32 operands.now) }
{
    let mut words = Vec::new(alloc);
    for operand in operands {
        if let Operand::Integer(value) = operand {
            words.push(low_bits(32, *value))?;
        }
    }
    Ok(WordList { words })
}

fn bytes_of(alloc: Global, operands: &[Operand]) -> Result<ByteList, AllocError>
    ensures { IfOk result (λ b. b ≡ values 8 operands.now) }
{
    let mut bytes = Vec::new(alloc);
    for operand in operands {
        if let Operand::Integer(value) = operand {
            bytes.push(low_bits(8, *value) as u8)?;
        }
    }
    Ok(ByteList { bytes })
}

fn space_item(alloc: Global, operands: &[Operand]) -> Result<Item, AllocError>
    ensures { IfOk result (λ i. i ≡ source_item Space operands.now) }
{
    match operands {
        [Operand::Integer(count)] => {
            let bytes = vec![in alloc; 0; low_bits(32, *count) as usize]?;
            Ok(Item::Filled(ByteList { bytes }))
        }
        _ => Ok(Item::Nothing),
    }
}

fn thread_item(alloc: Global, operands: &[Operand]) -> Result<Item, AllocError>
    ensures { IfOk result (λ i. i ≡ source_item Thread operands.now) }
{
    match operands {
        [Operand::Symbol(label)] => Ok(Item::Entry(copy_name(alloc, label)?)),
        _ => Ok(Item::Nothing),
    }
}

fn objects_item(operands: &[Operand]) -> Item
    ensures { (image : ImageForm) → result ≡ source_item (Objects image) operands.now }
{
    match operands {
        [Operand::Integer(count)] => Item::Count(low_bits(32, *count)),
        _ => Item::Nothing,
    }
}

fn object_item(alloc: Global, operands: &[Operand]) -> Result<Item, AllocError>
    ensures { IfOk result (λ i. (image : ImageForm) → i ≡ source_item (Object image) operands.now) }
{
    match operands {
        [Operand::Integer(object), rest @ ..] => {
            Ok(Item::First(low_bits(32, *object), words_of(alloc, rest)?))
        }
        _ => Ok(Item::Nothing),
    }
}

// An instruction that takes no operands.
fn fixed_item(alloc: Global, inst: Inst, operands: &[Operand]) -> Result<Item, AllocError>
    ensures { IfOk result (λ i. i ≡ (if length operands.now == 0 then instruction inst else Nothing)) }
{
    if operands.is_empty() {
        instruction(alloc, inst)
    } else {
        Ok(Item::Nothing)
    }
}

fn enlarges_item(operands: &[Operand]) -> Item
    ensures { result ≡ source_item Enlarges operands.now }
{
    match operands {
        [] => Item::Enlarged,
        _ => Item::Nothing,
    }
}

fn section_item(section: Section, operands: &[Operand]) -> Item
    ensures { result ≡ source_item (Sections section) operands.now }
{
    match operands {
        [] => Item::Within(section),
        _ => Item::Nothing,
    }
}

/// The item of a form with these operands.
pub fn item_of(alloc: Global, form: Form, operands: &[Operand]) -> Result<Item, AllocError>
    ensures { IfOk result (λ i. i ≡ source_item form operands.now) }
{
    match form {
        Form::Registers(op) => registers_item(alloc, op, operands),
        Form::Immediates(op) => immediates_item(alloc, op, operands),
        Form::Shifts(op) => shifts_item(alloc, op, operands),
        Form::Loads(op) => loads_item(alloc, op, operands),
        Form::JumpsTo => jumps_to_item(alloc, operands),
        Form::Stores(op) => stores_item(alloc, op, operands),
        Form::Branches(op) => branches_item(alloc, op, operands),
        Form::Jumps => jumps_item(alloc, operands),
        Form::LoadsUpper => loads_upper_item(alloc, operands),
        Form::AddsUpper => adds_upper_item(alloc, operands),
        Form::Fences => fences_item(alloc, operands),
        Form::Calls => fixed_item(alloc, Inst::Ecall, operands),
        Form::Breaks => fixed_item(alloc, Inst::Ebreak, operands),
        Form::DoesNothing => does_nothing_item(alloc, operands),
        Form::LoadsValue => loads_value_item(alloc, operands),
        Form::Enlarges => Ok(enlarges_item(operands)),
        Form::Sections(section) => Ok(section_item(section, operands)),
        Form::Words => Ok(Item::Code(words_of(alloc, operands)?)),
        Form::Bytes => Ok(Item::Filled(bytes_of(alloc, operands)?)),
        Form::Space => space_item(alloc, operands),
        Form::Thread => thread_item(alloc, operands),
        Form::Objects(_) => Ok(objects_item(operands)),
        Form::Object(_) => object_item(alloc, operands),
    }
}
