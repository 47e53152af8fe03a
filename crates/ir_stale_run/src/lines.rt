//! The lines of the rows that rest on their reads.

ghost use Rattle.std.specs.Prelude.{◌≡◌, ◌<◌, ◌≤◌, ◌+◌, ◌++◌, length, slice_get, Some, IfOk, OnOk};
ghost use Rattle.std.specs.List.{slice_index_or};
ghost use Rattle.std.specs.String.{string_bytes};
ghost use Rattle.arrayvec.specs.ArrayVec.{array_vec_len};
ghost use Rattle.ir_past.specs.Past.{IsRow, AreStaleWrites};
ghost use Rattle.ir_past.specs.Lines.{count_line};
ghost use Rattle.ir_opened.specs.Positions.{IsInside};
ghost use Rattle.ir_stale_run.specs.Lines.{rest_write_part, rest_read_part, rest_over_part, rest_reason_text, word_part, rest_line, one_if, rows_kept, line_if, first_lines, rests_text};
ghost use Rattle.ir_stale_run.specs.declared.rest.Rest.{Rest};

use crate::reason::Reason;
use crate::rest::Rest;
use ir_fit::Fitted;
use ir_opened::step_of;
use ir_past::{Place, StaleWrite, write_count};
use ir_stream::append;
use ir_text::{Text, put_number};
use std::alloc::{AllocError, Global};

// Puts the write of a row into an empty text.
fn put_write(text: &mut Text, fitted: &Fitted, row: &StaleWrite)
    requires empty { array_vec_len text.old ≡ 0 }
    requires row { IsRow fitted.now.recorded row.now }
    ensures { text.new.items ≡ text.old.items ++ rest_write_part fitted.now row.now }
{
    fitted.known();
    put_number(text, b"thread ", row.thread as u64);
    put_number(text, b" event ", row.event as u64);
    put_number(
        text,
        b" step ",
        step_of(
            fitted,
            Place {
                thread: row.thread,
                event: row.event,
            },
        ),
    );
    put_number(text, b" write ", row.object as u64);
    put_number(text, b" version ", row.written as u64);
}

// Puts the read of a row into an empty text.
fn put_read(text: &mut Text, fitted: &Fitted, row: &StaleWrite)
    requires empty { array_vec_len text.old ≡ 0 }
    requires row { IsRow fitted.now.recorded row.now }
    ensures { text.new.items ≡ text.old.items ++ rest_read_part fitted.now row.now }
{
    fitted.known();
    put_number(text, b" read event ", row.read as u64);
    put_number(
        text,
        b" step ",
        step_of(
            fitted,
            Place {
                thread: row.thread,
                event: row.read,
            },
        ),
    );
    put_number(text, b" version ", row.version as u64);
}

// Puts what wrote over the read of a row into an empty text.
fn put_over(text: &mut Text, fitted: &Fitted, place: &Place)
    requires empty { array_vec_len text.old ≡ 0 }
    requires placed { IsInside fitted.now place.now.thread place.now.event }
    ensures { text.new.items ≡ text.old.items ++ rest_over_part fitted.now place.now }
{
    put_number(text, b" overwritten by thread ", place.thread as u64);
    put_number(text, b" event ", place.event as u64);
    put_number(text, b" step ", step_of(fitted, *place));
}

// How the thread would have acted otherwise.
fn reason_text(reason: Reason) -> &'static [u8]
    ensures value { result.now ≡ rest_reason_text reason }
    ensures short { length result.now ≤ 8 }
{
    match reason {
        Reason::Value => b"value",
        Reason::Way => b"way",
    }
}

// Puts a word that was read and is another into an empty text, and the line's end.
fn put_words(text: &mut Text, rest: &Rest)
    requires { array_vec_len text.old ≡ 0 }
    ensures { text.new.items ≡ text.old.items ++ word_part rest.now }
{
    let mut was = [0; 8];
    let mut is = [0; 8];
    let _ = hex::encode_to_slice(rest.was.to_be_bytes(), &mut was);
    let _ = hex::encode_to_slice(rest.is.to_be_bytes(), &mut is);
    put_number(text, b" word ", rest.word as u64);
    append(text, b" was ");
    append(text, &was);
    append(text, b" is ");
    append(text, &is);
    append(text, b" ");
    append(text, reason_text(rest.reason));
    append(text, b"\n");
}

// The line of a row that rests so on its read.
fn rest_line(
    alloc: Global,
    fitted: &Fitted,
    row: &StaleWrite,
    rest: &Rest,
) -> Result<Vec<u8>, AllocError>
    requires row { IsRow fitted.now.recorded row.now }
    ensures { IfOk result (λ line. line.items ≡ rest_line fitted.now row.now rest.now) }
{
    fitted.known();
    let mut write = Text::new();
    let mut read = Text::new();
    let mut over = Text::new();
    let mut words = Text::new();
    put_write(&mut write, fitted, row);
    put_read(&mut read, fitted, row);
    put_over(&mut over, fitted, &row.overwritten_by);
    put_words(&mut words, rest);
    let mut line = Vec::from_slice(alloc, write.as_slice())?;
    line.extend_from_slice(read.as_slice())?;
    line.extend_from_slice(over.as_slice())?;
    line.extend_from_slice(words.as_slice())?;
    Ok(line)
}

// Puts the line of a row at the end, if it rests on its read.
fn put_row(
    alloc: Global,
    fitted: &Fitted,
    row: &StaleWrite,
    rest: &Option<Rest>,
    text: &mut Vec<u8>,
) -> Result<(), AllocError>
    requires row { IsRow fitted.now.recorded row.now }
    ensures { OnOk result (text.new.items ≡ text.old.items ++ line_if fitted.now (Some row.now) rest.now) }
{
    match rest {
        Some(rest) => {
            let line = rest_line(alloc, fitted, row, rest)?;
            text.extend_from_slice(line.as_slice())
        }
        None => Ok(()),
    }
}

// The first line: how many rows rest on their reads, of how many write entries.
fn count_line(alloc: Global, kept: usize, writes: usize) -> Result<String, AllocError>
    ensures { IfOk result (λ s. string_bytes s ≡ count_line kept writes) }
{
    format!(in alloc; "stale {kept} of {writes}\n")
}

// 1 for a row that rests on its read.
fn one_if(rest: &Option<Rest>) -> usize
    ensures value { result ≡ one_if rest.now }
    ensures small { result ≤ 1 }
{
    match rest {
        Some(_) => 1,
        None => 0,
    }
}

/// How many rows rest on their reads.
pub fn kept_of(rests: &[Option<Rest>]) -> usize
    ensures count { result ≡ rows_kept rests.now (length rests.now) }
    ensures few { result ≤ length rests.now }
{
    let mut kept = 0;
    for i in 0..rests.len() {
        kept += one_if(&rests[i]);
    }
    kept
}

/// The lines of the rows that rest on their reads, after how many they are, of how many write entries. What is taken grows with the
/// rows that are kept, by some 150 bytes each.
///
/// # Errors
/// Out of memory.
pub fn rests_text(
    alloc: Global,
    fitted: &Fitted,
    rows: &[StaleWrite],
    rests: &[Option<Rest>],
) -> Result<Vec<u8>, AllocError>
    requires rows { AreStaleWrites fitted.now.recorded rows.now }
    requires size { length rests.now ≡ length rows.now }
    ensures { IfOk result (λ text. text.items ≡ rests_text fitted.now rows.now rests.now) }
{
    let first = count_line(alloc, kept_of(rests), write_count(fitted.trace()))?;
    let mut text = Vec::from_slice(alloc, first.as_bytes())?;
    for i in 0..rows.len() {
        put_row(alloc, fitted, &rows[i], &rests[i], &mut text)?;
    }
    Ok(text)
}
