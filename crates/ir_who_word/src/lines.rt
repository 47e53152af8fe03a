//! The lines of `ir who --word`.

ghost use Rattle.std.specs.Prelude.{◌≡◌, ◌<◌, length, IfOk};
ghost use Rattle.std.specs.String.{string_bytes};
ghost use Rattle.ir_who_word.specs.Lines.{changed_word_line, word_changes, word_text};

use crate::worded::Worded;
use ir_opened::step_text;
use ir_past::maker_text;
use ir_who::object_line;
use std::alloc::{AllocError, Global};

// The line of a version.
fn word_line(alloc: Global, index: u8, number: usize, worded: &Worded) -> Result<String, AllocError>
    ensures { IfOk result (λ s. string_bytes s ≡ changed_word_line index number worded.now) }
{
    let maker = maker_text(alloc, &worded.made_by)?;
    let step = step_text(alloc, worded.step)?;
    let digits = hex::encode(alloc, worded.word.to_be_bytes())?;
    format!(in alloc; "version {number} by {maker}{step} word {index} {digits}\n")
}

// Whether a version has another word than the one before it; the first version counts as such.
fn is_other(rows: &[Worded], number: usize) -> bool
    requires { number < length rows.now }
    ensures { result ≡ word_changes rows.now number }
{
    number == 0 || rows[number - 1].word != rows[number].word
}

/// The lines of an object: how many versions it has, and those that have another word than the version before.
///
/// # Errors
/// Out of memory.
pub fn word_text(
    alloc: Global,
    object: u8,
    index: u8,
    rows: &[Worded],
) -> Result<String, AllocError>
    ensures { IfOk result (λ s. string_bytes s ≡ word_text object index rows.now) }
{
    let mut text = object_line(alloc, object, rows.len())?;
    for number in 0..rows.len() {
        if is_other(rows, number) {
            text.push_str(word_line(alloc, index, number, &rows[number])?.as_str())?;
        }
    }
    Ok(text)
}
