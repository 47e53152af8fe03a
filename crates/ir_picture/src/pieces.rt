//! Texts that are written in pieces.

ghost use Rattle.std.specs.Prelude.{◌≡◌, ◌++◌, [], OnOk, IfOk, IfErr, false};
ghost use Rattle.std.specs.Io.KnownBytes.{Appends};
ghost use Rattle.ir_stream.specs.Answers.{AppendsPrefix};
ghost use Rattle.ir_stream.specs.Writing.{WritesOrFails};
ghost use Rattle.ir_files.specs.Writers.{writer_of};
ghost use Rattle.ir_text.specs.Buffered.{Buffered};
ghost use Rattle.ir_past.specs.Answers.{Stops};

use ir_past::PastErr;
use ir_stream::{DeviceErr, Sink, write_all};
use itoa::{Buffer, Integer};
use std::alloc::{AllocError, Global};

// The least number of bytes that are written at a time, but for the last.
const PIECE: usize = 65_536;

// The room of a text: a piece, and a line more.
const PIECE_ROOM: usize = PIECE + 1024;

/// An empty text, with room for a piece and a line.
///
/// # Errors
/// Out of memory.
pub fn empty_text(alloc: Global) -> Result<Vec<u8>, AllocError>
    ensures { IfOk result (λ v. v.items ≡ []) }
{
    Vec::with_capacity(alloc, PIECE_ROOM)
}

/// Adds words.
///
/// # Errors
/// Out of memory.
pub fn push_words(text: &mut Vec<u8>, words: &[u8]) -> Result<(), AllocError>
    ensures { OnOk result (text.new.items ≡ text.old.items ++ words.now) }
{
    text.extend_from_slice(words)
}

/// Adds words and a number.
///
/// # Errors
/// Out of memory.
pub fn push_number<N: Integer>(
    text: &mut Vec<u8>,
    words: &[u8],
    number: N,
) -> Result<(), AllocError>
    ensures { OnOk result (text.new.items ≡ text.old.items ++ (words.now ++ N.text number)) }
{
    let mut buffer = Buffer::new();
    text.extend_from_slice(words)?;
    text.extend_from_slice(buffer.format(number).as_bytes())
}

/// Writes a text and empties it, if it is a piece or more.
///
/// # Errors
/// The writer failed; then a prefix was written.
pub fn write_piece<O: Sink>(text: &mut Vec<u8>, out: &mut O) -> Result<(), DeviceErr>
    ensures { WritesOrFails O.broken out.old out.new (Buffered (O.written out.old) (O.written out.new) text.new.items text.old.items)
        (AppendsPrefix (O.written out.old) (O.written out.new) text.old.items) result }
{
    if text.len() < PIECE {
        return Ok(());
    }
    write_all(out, text)?;
    text.clear();
    Ok(())
}

/// Writes a text and its last words.
///
/// # Errors
/// Out of memory, or the writer failed; then a prefix was written.
pub fn write_last<O: Sink>(text: &mut Vec<u8>, words: &[u8], out: &mut O) -> Result<(), PastErr>
    requires { O.broken out.old ≡ false }
    ensures ok { OnOk result (Appends (O.written out.old) (O.written out.new) (text.old.items ++ words.now)) }
    ensures works { OnOk result (O.broken out.new ≡ false) }
    ensures fails { IfErr result (λ e. Stops e (writer_of (O.written out.old) (O.written out.new) (O.broken out.new)) (text.old.items ++ words.now)) }
{
    text.extend_from_slice(words)?;
    Ok(write_all(out, text)?)
}
