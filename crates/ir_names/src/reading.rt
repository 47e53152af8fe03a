//! The reader of names.

ghost use Rattle.std.specs.Prelude.{◌≡◌, ◌==◌, ◌<◌, ◌≤◌, ◌∷◌, length, option_map, IfErr, IfOk, OnOk, Ok, Some};
ghost use Rattle.std.specs.List.{position_or_len};
ghost use Rattle.std.specs.Str.Lines.{strip_carriage_return};
ghost use Rattle.ir_command.specs.Commands.{words_of};
ghost use Rattle.ir_names.specs.Lines.{row_if_name, thing_by, word_by, word_row, row_by_words, row_behind, row_in, text_lines, with_names_of_line, names_at, IsLineFault, IsNamesFault};

use crate::legal::is_name;
use crate::names_err::NamesErr;
use crate::naming::{OBJECT, THREAD, WORD};
use crate::numbers::{address, decimal};
use crate::table::Names;
use crate::thing::Thing;
use ir_command::next_word;
use std::alloc::Global;

// How many digits an address has.
const ADDRESS_DIGITS: usize = 8;

// A thing and its name.
type Row<'a> = (Thing, &'a [u8]);

// A thing and a name, if that is one.
fn row(thing: Thing, name: &[u8]) -> Option<Row<'_>>
    ensures { option_map (λ row. (row.0, row.1.now)) result ≡ row_if_name thing name.now }
{
    if is_name(name) {
        Some((thing, name))
    } else {
        None
    }
}

// The thread or the object of a number, by the word before it.
fn thing_by(kind: &[u8], number: u64) -> Option<Thing>
    ensures { result ≡ thing_by kind.now number }
{
    if kind == THREAD {
        Some(Thing::Thread(number))
    } else if kind == OBJECT {
        Some(Thing::Object(number))
    } else {
        None
    }
}

// The word of an object, by the words before the two numbers.
fn word_by(kind: &[u8], object: u64, part: &[u8], index: u64) -> Option<Thing>
    ensures { result ≡ word_by kind.now object part.now index }
{
    if kind == OBJECT && part == WORD {
        Some(Thing::Word(object, index))
    } else {
        None
    }
}

// What five words say of the word of an object, of which the last two are in the rest.
fn word_row<'a>(kind: &[u8], object: u64, part: &[u8], rest: &'a [u8]) -> Option<Row<'a>>
    ensures { option_map (λ row. (row.0, row.1.now)) result ≡ word_row kind.now object part.now (words_of rest.now) }
{
    let (index, rest) = next_word(rest)?;
    let (name, rest) = next_word(rest)?;
    if next_word(rest).is_some() {
        return None;
    }
    let thing = word_by(kind, object, part, decimal(index)?)?;
    row(thing, name)
}

// What the words of a line say.
fn row_by_words(line: &[u8]) -> Option<Row<'_>>
    ensures { option_map (λ row. (row.0, row.1.now)) result ≡ row_by_words (words_of line.now) }
{
    let (kind, rest) = next_word(line)?;
    let (number, rest) = next_word(rest)?;
    let number = decimal(number)?;
    let (name, rest) = next_word(rest)?;
    match next_word(rest) {
        None => row(thing_by(kind, number)?, name),
        Some(_) => word_row(kind, number, name, rest),
    }
}

// The name behind an address and a blank.
fn row_behind(address: u32, behind: &[u8]) -> Option<Row<'_>>
    ensures { option_map (λ row. (row.0, row.1.now)) result ≡ row_behind address behind.now }
{
    match behind {
        [b' ', name @ ..] => row(Thing::Address(address), name),
        _ => None,
    }
}

// The row of a line.
#[tactic(auto, unfolding(crate::specs::Lines::row_in))]
fn row_in(line: &[u8]) -> Option<Row<'_>>
    ensures { option_map (λ row. (row.0, row.1.now)) result ≡ row_in line.now }
{
    if line.len() < ADDRESS_DIGITS {
        return row_by_words(line);
    }
    let (digits, behind) = line.split_at(ADDRESS_DIGITS);
    match address(digits) {
        Some(address) => row_behind(address, behind),
        None => row_by_words(line),
    }
}

// A line without the carriage return at its end.
fn stripped(line: &[u8]) -> &[u8]
    ensures { result.now ≡ strip_carriage_return line.now }
{
    match line {
        [first @ .., b'\r'] => first,
        _ => line,
    }
}

// How many bytes are before the first line feed.
fn line_len(text: &[u8]) -> usize
    ensures value { result ≡ position_or_len (λ b. b == 10) text.now }
    ensures within { result ≤ length text.now }
{
    text.iter().take_while(|byte| **byte != b'\n').count()
}

// The first line of a text, and what follows its line feed.
fn first_line(text: &[u8]) -> (&[u8], &[u8])
    requires { 0 < length text.now }
    ensures lines { text_lines text.now ≡ result.0.now ∷ text_lines result.1.now }
    ensures shorter { length result.1.now < length text.now }
{
    let (line, after) = text.split_at(line_len(text));
    match after {
        [] => (stripped(line), after),
        [_, after @ ..] => (stripped(line), after),
    }
}

// Adds the name of a line, the line of this number.
#[tactic(auto, unfolding(crate::specs::Lines::with_names_of_line))]
fn add_line(alloc: Global, names: &mut Names, line: &[u8], number: usize) -> Result<(), NamesErr>
    ensures added { OnOk result (with_names_of_line names.old line.now ≡ Some names.new) }
    ensures faulty { IfErr result (λ error. IsLineFault number error (with_names_of_line names.old line.now)) }
{
    if next_word(line).is_none() {
        return Ok(());
    }
    match row_in(line) {
        Some((thing, name)) => {
            names.add(alloc, thing, name)?;
            Ok(())
        }
        None => Err(NamesErr::Line(number)),
    }
}

/// The names of a file, a line for each:
/// - `thread T NAME`, `object O NAME` and `object O word W NAME`, with numbers of 1 to 10 decimal digits and blanks between the words;
/// - `A NAME`, where A is an address in eight hexadecimal digits of either case, and all behind the blank is the name.
///
/// A name has 1 to 4096 bytes and no control characters. Of several names of a thing the first counts. Lines without a word are passed
/// over, and so is a carriage return at the end of a line.
///
/// # Errors
/// The first other line, or out of memory.
pub fn read_names(alloc: Global, bytes: &[u8]) -> Result<Names, NamesErr>
    // The names of the lines.
    ensures read { IfOk result (λ names. names_at bytes.now ≡ Ok names) }
    // Or the first faulty line, or memory ran out.
    ensures faulty { IfErr result (λ error. IsNamesFault error (names_at bytes.now)) }
{
    let mut names = Names::new(alloc);
    let mut number = 0;
    let mut rest = bytes;
    while !rest.is_empty() {
        let (line, after) = first_line(rest);
        number += 1;
        add_line(alloc, &mut names, line, number)?;
        rest = after;
    }
    Ok(names)
}
