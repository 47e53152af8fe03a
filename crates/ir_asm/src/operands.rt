//! The operands of a statement.

ghost use Rattle.std.specs.Prelude.{◌≡◌, ◌≤◌, ◌+◌, length};
ghost use Rattle.ir_asm.specs.Faults.{YieldsOrFaults};
ghost use Rattle.ir_asm.specs.Operands.{are_formed, read_all, operands_of};
ghost use Rattle.ir_asm.specs.Source.{texts_of};

use crate::cause::Cause;
use crate::form::Form;
use crate::item::Operand;
use crate::operand::{is_formed, read};
use crate::refusal::Refusal;
use crate::table::{kind_at, takes};
use crate::text::{first_part, trim};
use std::alloc::Global;

// How many operands there are.
fn count(text: &[u8]) -> usize
    ensures { result ≡ length (texts_of text.now) }
{
    let mut rest = text;
    let mut more = !text.is_empty();
    let mut count = 0;
    while more {
        let (_, after) = first_part(rest, b',');
        count += 1;
        match after {
            Some(tail) => rest = tail,
            None => more = false,
        }
    }
    count
}

// Whether all operands have their shapes.
fn are_formed(form: Form, text: &[u8]) -> bool
    ensures { result ≡ are_formed form 0 (texts_of text.now) }
{
    let mut rest = text;
    let mut more = !text.is_empty();
    let mut place = 0;
    while more {
        let (part, after) = first_part(rest, b',');
        if !is_formed(kind_at(form, place), trim(part)) {
            return false;
        }
        place += 1;
        match after {
            Some(tail) => rest = tail,
            None => more = false,
        }
    }
    true
}

// What the operands say.
#[tactic(auto, using(crate::proofs::Texts::onto_read_all_step, crate::proofs::Texts::onto_nil, crate::proofs::Texts::refused_operand_refuses))]
fn read_all(alloc: Global, form: Form, text: &[u8]) -> Result<Vec<Operand>, Refusal>
    ensures { YieldsOrFaults (λ v. v.items) result (read_all form 0 (texts_of text.now)) }
{
    let mut operands = Vec::new(alloc);
    let mut rest = text;
    let mut more = !text.is_empty();
    let mut place = 0;
    while more {
        let (part, after) = first_part(rest, b',');
        match read(alloc, kind_at(form, place), trim(part)) {
            Ok(operand) => operands.push(operand)?,
            Err(refusal) => return Err(refusal),
        }
        place += 1;
        match after {
            Some(tail) => rest = tail,
            None => more = false,
        }
    }
    Ok(operands)
}

/// What the operands of a statement say: their number and all shapes are tested before any is read.
pub fn operands_of(alloc: Global, form: Form, text: &[u8]) -> Result<Vec<Operand>, Refusal>
    ensures { YieldsOrFaults (λ v. v.items) result (operands_of form (texts_of text.now)) }
{
    if !takes(form, count(text)) || !are_formed(form, text) {
        return Err(Refusal::Faulty(Cause::WrongOperands));
    }
    read_all(alloc, form, text)
}
