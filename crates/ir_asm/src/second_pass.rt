//! The second pass, which puts what was placed into a guest.

ghost use Rattle.std.specs.Prelude.{◌≡◌, ◌*◌, ◌≤◌, length};
ghost use Rattle.ir_image.specs.Guest.{object_words};
ghost use Rattle.ir_asm.specs.Faults.{MakesOrFaults};
ghost use Rattle.ir_asm.specs.Passes.{operand_value, text_address, distance_to, put_word_in, second_pass};
ghost use Rattle.ir_asm.specs.Answered.{AnswersSource};
ghost use Rattle.ir_asm.specs.Bounds.{HasFewWords, HaveFewWords};
ghost use Rattle.ir_asm.specs.declared.item.Item.TheVariants.{BranchTo, JumpTo, LoadAddress, Entry, First};

use crate::asm_err::{AsmErr, at_line};
use crate::cause::Cause;
use crate::fields::{branch_offset, jump_offset};
use crate::form::Section;
use crate::item::{Item, Name, Place, Placed};
use crate::items::load_words;
use crate::parts::Parts;
use crate::refusal::Refusal;
use crate::scan::Scan;
use crate::statement::same_section;
use ir_image::CODE_START;
use ir_isa::{BranchOp, Inst, Register, encode};
use std::alloc::Global;

// Where a label is.
fn value_of(scan: &Scan, label: &Name) -> Result<Place, Cause>
    ensures { result ≡ operand_value scan.now label.now }
{
    match scan.labels.get(label.text.as_slice()) {
        Some(place) => Ok(place),
        None => Err(Cause::LabelMissing),
    }
}

// The address of a label, which has to be in text.
fn text_address(scan: &Scan, label: &Name) -> Result<u32, Cause>
    ensures { result ≡ text_address scan.now label.now }
{
    let place = value_of(scan, label)?;
    if !same_section(place.section, Section::Text) {
        return Err(Cause::WrongSection);
    }
    Ok(place.address)
}

// How far a label lies from an address.
fn distance_to(scan: &Scan, low: i64, high: i64, address: u32, label: &Name) -> Result<i64, Cause>
    ensures { result ≡ distance_to scan.now low high address label.now }
{
    let distance = text_address(scan, label)? as i64 - address as i64;
    if low <= distance && distance <= high {
        Ok(distance)
    } else {
        Err(Cause::TooFar)
    }
}

fn put_branch(
    scan: &Scan,
    parts: &mut Parts,
    address: u32,
    op: BranchOp,
    compared: (Register, Register),
    label: &Name,
) -> Result<(), Refusal>
    ensures { MakesOrFaults parts.new result (put_word_in scan.now address (BranchTo op compared.0 compared.1 label.now) parts.old) }
{
    let distance = distance_to(scan, -4096, 4094, address, label)?;
    let offset = branch_offset(distance);
    parts.add_code(&[encode(&Inst::Branch {
        op,
        rs1: compared.0,
        rs2: compared.1,
        offset,
    })])?;
    Ok(())
}

fn put_jump(
    scan: &Scan,
    parts: &mut Parts,
    address: u32,
    rd: Register,
    label: &Name,
) -> Result<(), Refusal>
    ensures { MakesOrFaults parts.new result (put_word_in scan.now address (JumpTo rd label.now) parts.old) }
{
    let distance = distance_to(scan, -1_048_576, 1_048_574, address, label)?;
    let offset = jump_offset(distance);
    parts.add_code(&[encode(&Inst::Jal { rd, offset })])?;
    Ok(())
}

fn put_address(
    alloc: Global,
    scan: &Scan,
    parts: &mut Parts,
    rd: Register,
    label: &Name,
) -> Result<(), Refusal>
    ensures { MakesOrFaults parts.new result (put_word_in scan.now 0 (LoadAddress rd label.now) parts.old) }
{
    let place = value_of(scan, label)?;
    let words = load_words(alloc, rd, place.address)?;
    parts.add_code(words.as_slice())?;
    Ok(())
}

// The entry of a thread, which has to be a place in the code.
fn put_entry(scan: &Scan, parts: &mut Parts, label: &Name) -> Result<(), Refusal>
    ensures { MakesOrFaults parts.new result (put_word_in scan.now 0 (Entry label.now) parts.old) }
{
    let entry = text_address(scan, label)?;
    if entry >= CODE_START + scan.code.bytes {
        return Err(Refusal::Faulty(Cause::WrongSection));
    }
    parts.add_entry(entry)?;
    Ok(())
}

// The first words of an object, which has to be one.
#[tactic(auto, using(crate::proofs::Kept::object_has_room))]
fn put_object(scan: &Scan, parts: &mut Parts, object: u32, words: &[u32]) -> Result<(), Refusal>
    requires few { length words.now ≤ object_words parts.old }
    requires there { length parts.old.words ≡ object_words parts.old * scan.now.objects }
    ensures { MakesOrFaults parts.new result (put_word_in scan.now 0 (First object words.now) parts.old) }
{
    if object >= scan.objects {
        return Err(Refusal::Faulty(Cause::BadCount));
    }
    parts.set_object(object, words);
    Ok(())
}

// After an item.
fn put(
    alloc: Global,
    scan: &Scan,
    parts: &mut Parts,
    address: u32,
    item: &Item,
) -> Result<(), Refusal>
    requires few { HasFewWords parts.old.form item.now }
    requires there { length parts.old.words ≡ object_words parts.old * scan.now.objects }
    ensures { MakesOrFaults parts.new result (put_word_in scan.now address item.now parts.old) }
{
    match item {
        Item::Code(list) => parts.add_code(list.words.as_slice())?,
        Item::Filled(list) => parts.add_bytes(list.bytes.as_slice())?,
        Item::BranchTo(op, rs1, rs2, label) => put_branch(
            scan,
            parts,
            address,
            *op,
            (*rs1, *rs2),
            label,
        )?,
        Item::JumpTo(rd, label) => put_jump(scan, parts, address, *rd, label)?,
        Item::LoadAddress(rd, label) => put_address(alloc, scan, parts, *rd, label)?,
        Item::Entry(label) => put_entry(scan, parts, label)?,
        Item::First(object, list) => put_object(scan, parts, *object, list.words.as_slice())?,
        Item::Enlarged | Item::Within(_) | Item::Count(_) | Item::Nothing => {}
    }
    Ok(())
}

/// After what was placed, in its order.
///
/// # Errors
/// The first fault, or out of memory.
pub fn second_pass(
    alloc: Global,
    scan: &Scan,
    all: &[Placed],
    parts: &mut Parts,
) -> Result<(), AsmErr>
    requires few { HaveFewWords parts.old.form all.now }
    requires there { length parts.old.words ≡ object_words parts.old * scan.now.objects }
    ensures { AnswersSource (λ _. parts.new) result (second_pass scan.now all.now parts.old) }
{
    for placed in all {
        match put(alloc, scan, parts, placed.address, &placed.item) {
            Ok(()) => {}
            Err(refusal) => return Err(at_line(placed.line, refusal)),
        }
    }
    Ok(())
}
