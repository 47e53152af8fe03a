//! Lines of hexadecimal digits.

ghost use Rattle.std.specs.Prelude.{◌≡◌, IfOk, IfErr, OnOk, Some, false};
ghost use Rattle.ir_program.specs.Bundle.{bytes_of_line};
ghost use Rattle.ir_program.specs.Taking.{reader_of, TakesLine, LineFails, GivesNone};

use crate::fault::ProgramErr;
use ir_command::without_return;
use ir_stream::{Next, Source, next_byte};
use std::alloc::Global;

/// The most hexadecimal digits of a line.
pub const MOST_DIGITS: usize = 4_194_304;

// The most bytes of a line that may hold this number of digits: a carriage return may follow them.
const MOST_CHARACTERS: usize = MOST_DIGITS + 1;

/// Takes a line from the reader, without its line feed.
pub fn read_line<R: Source>(alloc: Global, reader: &mut R) -> Result<Vec<u8>, ProgramErr>
    requires { R.broken reader.old ≡ false }
    ensures ok { IfOk result (λ line. TakesLine (R.left reader.old) (R.left reader.new) line.items) }
    ensures stays { OnOk result (R.broken reader.new ≡ false) }
    ensures fails { IfErr result (λ e. LineFails e (reader_of (R.left reader.old) (R.left reader.new) (R.broken reader.new))) }
{
    let mut line = Vec::new(alloc);
    for _ in 0..=MOST_CHARACTERS {
        match next_byte(reader) {
            Next::Failed => return Err(ProgramErr::Read),
            Next::End => return Ok(line),
            Next::Byte(byte) => {
                if byte == b'\n' {
                    return Ok(line);
                }
                line.push(byte)?;
            }
        }
    }
    Err(ProgramErr::BadLine)
}

/// The bytes that a line writes in hexadecimal digits of either case.
#[tactic(auto, unfolding(crate::specs::Bundle::bytes_of_line))]
pub fn bytes_of(alloc: Global, line: &[u8]) -> Result<Vec<u8>, ProgramErr>
    ensures ok { IfOk result (λ bytes. bytes_of_line line.now ≡ Some bytes.items) }
    ensures fails { IfErr result (λ e. GivesNone e line.now) }
{
    let digits = without_return(line);
    if digits.len() > MOST_DIGITS {
        return Err(ProgramErr::BadLine);
    }
    match hex::decode(alloc, digits) {
        Ok(bytes) => Ok(bytes),
        Err(hex::FromHexError::OutOfMemory) => Err(ProgramErr::NoMem),
        Err(_) => Err(ProgramErr::BadLine),
    }
}
