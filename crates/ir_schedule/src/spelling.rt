//! How conditions are written.

ghost use Rattle.ir_schedule.specs.Conditions.{as_condition, as_fact, as_literal};
ghost use Rattle.ir_schedule.specs.Spelling.{two_values, three_values, printed_fact, bare_fact, fact_named, fact_of, literal_of, condition_of};
ghost use Rattle.std.specs.Prelude.{◌≡◌, option_map, IfOk};

use crate::condition::{Condition, Fact, Literal};
use crate::text::{cut, marks};
use bstr::ByteSlice;
use ir_command::parse_u32;
use ir_thread::MOST_END;
use std::alloc::{AllocError, Global};

// Two numbers with a blank between them.
#[tactic(auto, unfolding(crate::specs::Spelling::two_values))]
fn two_values(text: &[u8]) -> Option<(u32, u32)>
    ensures { result ≡ two_values text.now }
{
    let (word, rest) = cut(text);
    let first = parse_u32(word)?;
    let second = parse_u32(rest?)?;
    Some((first, second))
}

// Three numbers with a blank between each two.
#[tactic(auto, unfolding(crate::specs::Spelling::three_values))]
fn three_values(text: &[u8]) -> Option<(u32, u32, u32)>
    ensures { result ≡ three_values text.now }
{
    let (word, rest) = cut(text);
    let first = parse_u32(word)?;
    let (second, third) = two_values(rest?)?;
    Some((first, second, third))
}

// A thread's number, a blank, and any text.
#[tactic(auto, unfolding(crate::specs::Spelling::printed_fact))]
fn printed_fact(text: &[u8]) -> Option<Fact<'_>>
    ensures { option_map as_fact result ≡ printed_fact text.now }
{
    let (word, rest) = cut(text);
    let thread = parse_u32(word)?;
    Some(Fact::Printed(thread, rest?))
}

// The fact of a name with nothing after it.
#[tactic(auto, unfolding(crate::specs::Spelling::bare_fact))]
fn bare_fact<'a>(name: &[u8]) -> Option<Fact<'a>>
    ensures { option_map as_fact result ≡ bare_fact name.now }
{
    if name == b"fault".as_slice() {
        Some(Fact::Fault)
    } else if name == b"bad".as_slice() {
        Some(Fact::Bad)
    } else if name == b"budget".as_slice() {
        Some(Fact::Budget)
    } else {
        None
    }
}

// The fact of a name with these arguments.
#[tactic(auto, unfolding(crate::specs::Spelling::fact_named))]
fn fact_named<'a>(name: &[u8], arguments: &'a [u8]) -> Option<Fact<'a>>
    ensures { option_map as_fact result ≡ fact_named name.now arguments.now }
{
    if name == b"end".as_slice() {
        let (thread, number) = two_values(arguments)?;
        if number == 0 || number > MOST_END {
            return None;
        }
        Some(Fact::End(thread, number))
    } else if name == b"code".as_slice() {
        let (thread, code) = two_values(arguments)?;
        Some(Fact::Code(thread, code))
    } else if name == b"word".as_slice() {
        let (object, index, value) = three_values(arguments)?;
        Some(Fact::Word(object, index, value))
    } else if name == b"out".as_slice() {
        printed_fact(arguments)
    } else {
        None
    }
}

// The fact that a text writes.
fn fact_of(text: &[u8]) -> Option<Fact<'_>>
    ensures { option_map as_fact result ≡ fact_of text.now }
{
    match cut(text) {
        (name, Some(arguments)) => fact_named(name, arguments),
        (name, None) => bare_fact(name),
    }
}

// The literal that a text writes.
fn literal_of(text: &[u8]) -> Option<Literal<'_>>
    ensures { option_map as_literal result ≡ literal_of text.now }
{
    let marks = marks(text);
    let fact = fact_of(&text[marks..])?;
    Some(Literal {
        is_denied: marks % 2 == 1,
        fact,
    })
}

// What is between two literals.
const BAR: &[u8] = b" | ";

/// The condition that a text writes, if it writes one: literals with ` | ` between them. A literal is `end T E`, `code T V`, `word O I V`,
/// `out T TEXT`, `fault`, `bad`, `budget`, or `!` and a literal. One blank is between two words, and TEXT is all that comes after one. Numbers
/// are decimal, or `0x` and hexadecimal digits.
///
/// # Errors
/// Out of memory.
pub fn condition_of(alloc: Global, text: &[u8]) -> Result<Option<Condition<'_>>, AllocError>
    ensures { IfOk result (λ read. option_map as_condition read ≡ condition_of text.now) }
{
    let mut alternatives = Vec::new(alloc);
    for part in text.split_str(BAR) {
        match literal_of(part) {
            Some(literal) => alternatives.push(literal)?,
            None => return Ok(None),
        }
    }
    Ok(Some(Condition { alternatives }))
}
