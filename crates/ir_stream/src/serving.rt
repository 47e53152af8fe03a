//! What reading a byte gives, and how lines and their answers end.

ghost use Rattle.std.specs.Prelude.{◌≡◌};
ghost use Rattle.ir_stream.specs.Nexts.{IsNext, broken_after};

use crate::device::Source;

/// Whether more lines are answered.
#[derive(Clone, Copy, Debug, PartialEq, Eq)]
pub enum Flow {
    Goes,
    Quits,
}

/// How lines that were all answered ended.
#[derive(Clone, Copy, Debug, PartialEq, Eq)]
pub enum Served {
    Quit,
    InputEnd,
}

/// Why no more lines are read or answered: the reader failed, the writer failed, or the limit of bytes came first.
#[derive(Clone, Copy, Debug, PartialEq, Eq)]
pub enum Fault {
    Read,
    Write,
    TooLong,
}

/// What a reader gave next.
#[derive(Clone, Copy, Debug, PartialEq, Eq)]
pub enum Next {
    /// A byte.
    Byte(u8),
    /// Nothing: its bytes are at their end.
    End,
    /// Nothing: the read failed.
    Failed,
}

/// Takes the next byte of a reader.
pub fn next_byte<R: Source>(reader: &mut R) -> Next
    ensures bytes { IsNext result (R.left reader.old) (R.left reader.new) }
    ensures broken { R.broken reader.new ≡ broken_after result (R.broken reader.old) }
{
    let mut buffer = [0];
    match reader.read(&mut buffer) {
        Err(_) => Next::Failed,
        Ok(0) => Next::End,
        Ok(_) => Next::Byte(buffer[0]),
    }
}
