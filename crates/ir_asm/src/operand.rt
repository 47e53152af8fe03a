//! Operands: their shape, and what they say.

ghost use Rattle.std.specs.Prelude.{◌≡◌, ◌&&◌, ◌||◌, ◌==◌, ◌≤◌, ◌+◌, [], ◌∷◌, ℕ, ℤ, List, Option, Some, None, Ok, Err, IfOk, pos, negsuc, is_some, option_map, length, MatchOption, MatchResult};
ghost use Rattle.ir_asm.specs.Faults.{YieldsOrFaults};
ghost use Rattle.ir_asm.specs.Text.{is_source_name, is_source_digit, first_byte, split, trim};
ghost use Rattle.ir_asm.specs.Operands.{is_even, operand_within, operand_number, distance_in, is_like_label, in_parentheses, operand_address, is_formed, read, at_address};
ghost use Rattle.ir_asm.specs.declared.item.Operand.TheVariants.{Symbol};

use crate::cause::Cause;
use crate::form::Kind;
use crate::item::{Name, Operand};
use crate::number::{distance, number};
use crate::refusal::Refusal;
use crate::register::register;
use crate::text::{first_part, is_name, trim};
use std::alloc::{AllocError, Global};

fn within(low: i64, high: i64, value: i64) -> Result<i64, Cause>
    ensures { result ≡ operand_within low high value }
{
    if low <= value && value <= high {
        Ok(value)
    } else {
        Err(Cause::BadNumber)
    }
}

fn is_even(value: i64) -> bool
    ensures { result ≡ is_even value }
{
    value % 2 == 0
}

// The number of a text, in a range.
fn number_in(low: i64, high: i64, text: &[u8]) -> Result<i64, Cause>
    ensures { result ≡ operand_number low high text.now }
{
    match number(text) {
        Some(value) => within(low, high, value),
        None => Err(Cause::BadNumber),
    }
}

// The distance of a text, even and in a range.
fn distance_in(low: i64, high: i64, text: &[u8]) -> Result<i64, Cause>
    ensures { result ≡ distance_in low high text.now }
{
    match distance(text) {
        Some(value) if is_even(value) => within(low, high, value),
        _ => Err(Cause::BadNumber),
    }
}

fn is_like_label(text: &[u8]) -> bool
    ensures { result ≡ is_like_label text.now }
{
    if is_name(text) {
        return true;
    }
    match text {
        [first, ..] => first.is_ascii_digit() || *first == b'-' || *first == b'.',
        [] => false,
    }
}

fn name(alloc: Global, text: &[u8]) -> Result<Name, AllocError>
    ensures { IfOk result (λ n. n ≡ text.now) }
{
    let text = Vec::from_slice(alloc, text)?;
    Ok(Name { text })
}

// What comes before the one closing parenthesis, which ends the text.
#[tactic(auto, using(crate::proofs::Cuts::no_parentheses_in_text))]
fn before_closing(text: &[u8]) -> Option<&[u8]>
    ensures { MatchOption result ((imm : List ℕ) → in_parentheses (imm ∷ []) (split 41 text.now) ≡ None) (λ base. split 41 text.now ≡ base.now ∷ [] ∷ []) }
{
    match first_part(text, b')') {
        (base, Some([])) => Some(base),
        _ => None,
    }
}

// The text, if it is the only part between such bytes.
#[tactic(auto, using(crate::proofs::Cuts::split_has_more_parts))]
fn only_part(text: &[u8], byte: u8) -> Option<&[u8]>
    ensures { MatchOption result ((p : List ℕ) → split byte text.now ≡ p ∷ [] → ⊥) (λ part. split byte text.now ≡ part.now ∷ []) }
{
    match first_part(text, byte) {
        (part, None) => Some(part),
        (_, Some(_)) => None,
    }
}

// The parts of an address, which are a number and a register in parentheses.
#[tactic(auto, using(crate::proofs::Cuts::opened_twice_no_address, crate::proofs::Cuts::closed_early_no_address))]
fn address(text: &[u8]) -> Option<(&[u8], &[u8])>
    ensures { MatchOption result (operand_address text.now ≡ None) (λ parts. operand_address text.now ≡ Some (parts.0.now, parts.1.now)) }
{
    let (before, after) = first_part(text, b'(');
    let after = after?;
    let inside = only_part(after, b'(')?;
    let imm = only_part(before, b')')?;
    let base = before_closing(inside)?;
    Some((trim(imm), trim(base)))
}

/// Whether an operand has the shape of its kind.
pub fn is_formed(kind: Kind, text: &[u8]) -> bool
    ensures { result ≡ is_formed kind text.now }
{
    match kind {
        Kind::Register | Kind::Number(_, _) => !text.is_empty(),
        Kind::Address => address(text).is_some(),
        Kind::Target(_, _) | Kind::Value | Kind::Label => is_like_label(text),
    }
}

fn at_address(text: &[u8]) -> Result<Operand, Cause>
    ensures { result ≡ at_address (operand_address text.now) }
{
    match address(text) {
        Some((imm, base)) => {
            let imm = number_in(-2048, 2047, imm)?;
            let base = register(base)?;
            Ok(Operand::Offset(imm, base))
        }
        None => Err(Cause::WrongOperands),
    }
}

fn symbol(alloc: Global, text: &[u8]) -> Result<Operand, Refusal>
    ensures { YieldsOrFaults (λ x. x) result (Ok (Symbol text.now)) }
{
    let name = name(alloc, text)?;
    Ok(Operand::Symbol(name))
}

/// What an operand of a kind says.
pub fn read(alloc: Global, kind: Kind, text: &[u8]) -> Result<Operand, Refusal>
    ensures { YieldsOrFaults (λ x. x) result (read kind text.now) }
{
    match kind {
        Kind::Register => Ok(Operand::Index(register(text)?)),
        Kind::Number(low, high) => Ok(Operand::Integer(number_in(low, high, text)?)),
        Kind::Address => Ok(at_address(text)?),
        Kind::Target(low, high) => {
            if is_name(text) {
                return symbol(alloc, text);
            }
            Ok(Operand::Integer(distance_in(low, high, text)?))
        }
        Kind::Value => {
            if is_name(text) {
                return symbol(alloc, text);
            }
            Ok(Operand::Integer(number_in(-2_147_483_648, 4_294_967_295, text)?))
        }
        Kind::Label => {
            if is_name(text) {
                return symbol(alloc, text);
            }
            Err(Refusal::Faulty(Cause::BadNumber))
        }
    }
}
