//! The writer of listings.

ghost use Rattle.std.specs.Prelude.{◌≡◌, ◌≤◌, length, OnOk, OnErr};
ghost use Rattle.std.specs.Io.KnownBytes.{Appends};
ghost use Rattle.ir_image.specs.Guest.{most_code_words};
ghost use Rattle.ir_stream.specs.Answers.{AppendsPrefix};
ghost use Rattle.ir_list.specs.Listing.{entry_threads_text, code_lines_text, listing_text};
ghost use Rattle.ir_list.specs.Outcomes.{failed_after};

use crate::lines::{thread_line, word_lines};
use crate::list_err::ListErr;
use ir_image::{CODE_START, Image};
use ir_stream::{Sink, write_all};
use ir_symbols::SymbolTable;
use std::alloc::Global;

// Writes the lines of the threads.
fn put_threads<O: Sink>(
    alloc: Global,
    entries: &[u32],
    symbols: &SymbolTable,
    out: &mut O,
) -> Result<(), ListErr>
    ensures ok { OnOk result (Appends (O.written out.old) (O.written out.new) (entry_threads_text symbols.now entries.now)) }
    ensures prefix { OnErr result (AppendsPrefix (O.written out.old) (O.written out.new) (entry_threads_text symbols.now entries.now)) }
    ensures failed { O.broken out.new ≡ failed_after result (O.broken out.old) }
{
    for (number, entry) in entries.iter().enumerate() {
        let line = thread_line(alloc, symbols, number, *entry)?;
        write_all(out, line.as_bytes())?;
    }
    Ok(())
}

// Writes the lines of the code.
fn put_code<O: Sink>(
    alloc: Global,
    code: &[u32],
    symbols: &SymbolTable,
    out: &mut O,
) -> Result<(), ListErr>
    requires { length code.now ≤ most_code_words }
    ensures ok { OnOk result (Appends (O.written out.old) (O.written out.new) (code_lines_text symbols.now code.now)) }
    ensures prefix { OnErr result (AppendsPrefix (O.written out.old) (O.written out.new) (code_lines_text symbols.now code.now)) }
    ensures failed { O.broken out.new ≡ failed_after result (O.broken out.old) }
{
    for (number, word) in code.iter().enumerate() {
        let lines = word_lines(alloc, symbols, CODE_START + 4 * number as u32, *word)?;
        write_all(out, lines.as_bytes())?;
    }
    Ok(())
}

/// Writes a guest as text. Each thread has a line with its number and its entry. Each word of the code has a line with its address,
/// the word and its text. If it is a JAL or a branch, the name of its target follows. A symbol in the code has a line before the word
/// that it is in.
///
/// Memory is taken for the lines of one word at a time. The time grows with the code and the logarithm of the symbols.
///
/// # Errors
/// Out of memory, or the device failed; then a prefix of the lines was written.
pub fn list_run<O: Sink>(
    alloc: Global,
    image: &Image,
    symbols: &SymbolTable,
    out: &mut O,
) -> Result<(), ListErr>
    ensures ok { OnOk result (Appends (O.written out.old) (O.written out.new) (listing_text image.now symbols.now)) }
    ensures prefix { OnErr result (AppendsPrefix (O.written out.old) (O.written out.new) (listing_text image.now symbols.now)) }
    // The device fails if it is the cause of the error, and only then.
    ensures failed { O.broken out.new ≡ failed_after result (O.broken out.old) }
{
    put_threads(alloc, image.entries(), symbols, out)?;
    put_code(alloc, image.code().words(), symbols, out)
}
