//! A reader that asks for lines.

ghost use Rattle.std.specs.Prelude.{◌≡◌};

use crate::hints::advise;
use arrayvec::ArrayVec;
use ir_stream::{DeviceErr, KEPT, Source, keep};

const PROMPT: &str = "(ir) ";

/// A reader of lines that prompts on standard error before it reads the first byte of one, if it is to ask. If the line before
/// was refused for its words, it also says there what was wanted in place of that line. Where the input ends, so does the line
/// of the prompt.
#[derive(Drop)]
pub struct Prompting<'a, S, R> {
    reader: S,
    rt: &'a R,
    asks: bool,
    // Whether the next byte begins a line.
    begins: bool,
    // The line that was read last, or the first bytes of one.
    line: ArrayVec<u8, KEPT>,
}

impl<'a, S: Source, R> Prompting<'a, S, R> {
    /// The reader, at the start of a line.
    pub fn new(reader: S, rt: &'a R, asks: bool) -> Prompting<'a, S, R>
        ensures left { S.left result.reader ≡ S.left reader }
        ensures works { S.broken result.reader ≡ S.broken reader }
    {
        Prompting {
            reader,
            rt,
            asks,
            begins: true,
            line: ArrayVec::new(),
        }
    }
}

// Puts these bytes, of one line, after those that were read of it.
fn keep_all(line: &mut ArrayVec<u8, KEPT>, bytes: &[u8]) {
    for &byte in bytes {
        if byte != b'\n' {
            keep(line, byte);
        }
    }
}

impl<S, R: Eprint> Prompting<'_, S, R> {
    // Before a line is read, and after the one before it was answered.
    fn prompt(&mut self)
        ensures { self.new.reader ≡ self.old.reader }
    {
        advise(self.rt, self.line.as_slice());
        self.line.clear();
        let _ = self.rt.eprint(format_args!("{PROMPT}"));
    }
}

impl<S: Source, R: Eprint> Source for Prompting<'_, S, R> {
    ghost left = { λ p. S.left p.reader };

    ghost broken = { λ p. S.broken p.reader };

    fn read(&mut self, buffer: &mut [u8]) -> Result<usize, DeviceErr> {
        if self.asks && self.begins {
            self.prompt();
        }
        let count = self.reader.read(buffer)?;
        if self.asks {
            keep_all(&mut self.line, &buffer[..count]);
            if count == 0 && !buffer.is_empty() {
                let _ = self.rt.eprint(format_args!("\n"));
            }
        }
        self.begins = buffer[..count].last() == Some(&b'\n');
        Ok(count)
    }

    fn failed(&self) -> bool {
        self.reader.failed()
    }
}
