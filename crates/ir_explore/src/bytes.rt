//! Bytes and words in hexadecimal digits.

ghost use Rattle.std.specs.Prelude.{◌≡◌, ◌<◌, ◌*◌, ◌++◌, length, take, drop, OnOk};
ghost use Rattle.ir_text.specs.Texts.{hex_word};
ghost use Rattle.ir_text.specs.Parts.{lines_for};
ghost use Rattle.ir_explore.specs.Lines.{byte_line, byte_lines, spaced_words};

use std::alloc::{AllocError, Global};

// The most bytes of a line.
const LINE_BYTES: usize = 32;

// The bytes from byte `LINE_BYTES * number` on, as many as a line has.
fn line_of(bytes: &[u8], number: usize) -> &[u8]
    requires { 32 * number < length bytes.now }
    ensures { result.now ≡ take 32 (drop (32 * number) bytes.now) }
{
    let first = LINE_BYTES * number;
    if bytes.len() - first > LINE_BYTES {
        &bytes[first..first + LINE_BYTES]
    } else {
        &bytes[first..]
    }
}

// Puts the line of the bytes from byte `LINE_BYTES * number` on.
fn put_line(
    alloc: Global,
    text: &mut Vec<u8>,
    bytes: &[u8],
    number: usize,
) -> Result<(), AllocError>
    requires { 32 * number < length bytes.now }
    ensures { OnOk result (text.new.items ≡ text.old.items ++ byte_line bytes.now number) }
{
    let line = hex::encode(alloc, line_of(bytes, number))?;
    text.extend_from_slice(line.as_bytes())?;
    text.push(b'\n')?;
    Ok(())
}

/// Puts bytes in lines of 32.
pub fn put_bytes(alloc: Global, text: &mut Vec<u8>, bytes: &[u8]) -> Result<(), AllocError>
    ensures { OnOk result (text.new.items ≡ text.old.items ++ byte_lines bytes.now (lines_for 32 (length bytes.now))) }
{
    for number in 0..bytes.len().div_ceil(LINE_BYTES) {
        put_line(alloc, text, bytes, number)?;
    }
    Ok(())
}

/// Puts words, each after a blank.
pub fn put_words(text: &mut Vec<u8>, words: &[u32]) -> Result<(), AllocError>
    ensures { OnOk result (text.new.items ≡ text.old.items ++ spaced_words words.now) }
{
    for word in words {
        let mut digits = [0; 8];
        let _ = hex::encode_to_slice(word.to_be_bytes(), &mut digits);
        text.push(b' ')?;
        text.extend_from_slice(&digits)?;
    }
    Ok(())
}
