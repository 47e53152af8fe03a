//! Conditions of breakpoints, as a packet has them.

ghost use Rattle.std.specs.Prelude.{◌≡◌, ◌++◌, ℕ, List, [], Some, None, is_some, unwrap_or, IfOk, OnOk, MatchOption};
ghost use Rattle.ir_packet.specs.Numbers.{bytes_of_pairs};
ghost use Rattle.ir_packet.specs.Requests.{condition_text, conditions, conditions_in, without_semicolon};
ghost use Rattle.ir_packet.specs.Requests as requests;

use crate::arguments::{behind, cut};
use crate::number::{are_pairs, number, put_bytes};
use std::alloc::{AllocError, Global};
use std::marker::Model;

/// A condition, by its bytes.
#[derive(Drop)]
pub struct Condition {
    code: Vec<u8>,
}

impl Model for Condition {
    ghost use Rattle.std.specs.Prelude.{ℕ, List};

    ghost Value = { List ℕ };

    ghost view = { λ c. c.code.items };
}

impl Condition {
    // The condition whose bytes these pairs of digits write.
    fn of_digits(alloc: Global, digits: &[u8]) -> Result<Condition, AllocError>
        ensures { IfOk result (λ c. c ≡ bytes_of_pairs digits.now) }
    {
        let mut code = Vec::with_capacity(alloc, digits.len())?;
        put_bytes(&mut code, digits);
        Ok(Condition { code })
    }

    /// Its bytes.
    pub fn code(&self) -> &[u8]
        ensures { result.now ≡ self.now }
    {
        self.code.as_slice()
    }
}

// The digits of this many bytes at the beginning of a text, and what is behind them, if they are all there.
fn condition_text(count: u32, text: &[u8]) -> Option<(&[u8], &[u8])>
    ensures { MatchOption result
        (condition_text (Some count) text.now ≡ None)
        (λ pair. condition_text (Some count) text.now ≡ Some (record { digits = pair.0.now; rest = pair.1.now })) }
{
    let size = 2 * u64::from(count);
    if size > text.len() as u64 {
        return None;
    }
    let (digits, rest) = text.split_at(size as usize);
    if are_pairs(digits) {
        return Some((digits, rest));
    }
    None
}

// A text without the `;` that it may begin with.
fn without_semicolon(text: &[u8]) -> &[u8]
    ensures { result.now ≡ without_semicolon text.now }
{
    match text {
        [b';', rest @ ..] => rest,
        _ => text,
    }
}

// The digits of the first condition of a text, and what is behind it.
#[tactic(auto, unfolding(crate::specs::Requests::first_condition))]
fn first_condition(text: &[u8]) -> Option<(&[u8], &[u8])>
    ensures { MatchOption result
        (requests.first_condition text.now ≡ None)
        (λ pair. requests.first_condition text.now ≡ Some (record { digits = pair.0.now; rest = pair.1.now })) }
{
    match without_semicolon(text) {
        [b'X', text @ ..] => condition_text(number(cut(b',', text).0)?, behind(b',', text)),
        _ => None,
    }
}

/// Whether a text is made of conditions, at most this many.
#[tactic(auto, unfolding(crate::specs::Requests::conditions_in))]
pub fn are_conditions(most: usize, text: &[u8]) -> bool
    ensures { result ≡ is_some (conditions_in most text.now) }
{
    if text.is_empty() {
        return true;
    }
    if most == 0 {
        return false;
    }
    match first_condition(text) {
        None => false,
        Some((_, rest)) => are_conditions(most - 1, rest),
    }
}

// Puts the conditions of a text at the end, at most this many, if it is made of such.
#[tactic(auto, unfolding(crate::specs::Requests::conditions_in))]
fn put_conditions(
    alloc: Global,
    out: &mut Vec<Condition>,
    most: usize,
    text: &[u8],
) -> Result<(), AllocError>
    ensures { OnOk result ((each : List (List ℕ)) → conditions_in most text.now ≡ Some each → out.new.items ≡ out.old.items ++ each) }
{
    if text.is_empty() || most == 0 {
        return Ok(());
    }
    let Some((digits, rest)) = first_condition(text) else {
        return Ok(());
    };
    out.push(Condition::of_digits(alloc, digits)?)?;
    put_conditions(alloc, out, most - 1, rest)
}

/// The conditions of a text; none if it isn't made of conditions.
///
/// # Errors
/// Out of memory.
#[tactic(auto, using(crate::proofs::Conditions::none_are_put))]
pub fn conditions_of(alloc: Global, text: &[u8]) -> Result<Vec<Condition>, AllocError>
    ensures { IfOk result (λ v. v.items ≡ unwrap_or (conditions text.now) []) }
{
    let mut each = Vec::new(alloc);
    if !are_conditions(text.len(), text) {
        return Ok(each);
    }
    put_conditions(alloc, &mut each, text.len(), text)?;
    Ok(each)
}
