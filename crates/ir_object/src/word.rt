//! The word of an object.

ghost use Rattle.ir_object.specs.Standing.{Admitted};
ghost use Rattle.ir_object.specs.Word.{IsFields, word_of_object, fields_of, left_by};
ghost use Rattle.ir_runs.specs.declared.access.Access.TheVariants.{Reading, Writing};
ghost use Rattle.std.specs.Prelude.{◌≡◌, ◌↔◌, ◌+◌, ◌<◌, ◌^◌, IsTrue};

use crate::fields::Fields;

/// The word of an object: `version * 2^32 + left * 2^7 + inside * 2 + writer`.
#[derive(Clone, Copy, Debug, PartialEq, Eq)]
pub struct Word {
    /// The word as a number.
    pub bits: u64,
}

// What one of each counts in the word: a reader that is inside, one that has left, and a version. A writer counts 1.
const READER: u64 = 2;

const LEFT: u64 = 0x80;

const VERSION: u64 = 0x1_0000_0000;

impl Word {
    /// What a version counts in the word.
    pub const VERSION: u64 = VERSION;

    /// What a reader's entry adds to the word.
    pub const READER_ENTERS: u64 = READER;

    /// What a reader's leave adds: one less is inside, and one more has left.
    pub const READER_LEAVES: u64 = LEFT - READER;

    /// What a writer's entry adds.
    pub const WRITER_ENTERS: u64 = 1;

    /// The word that says so.
    pub fn pack(fields: Fields) -> Word
        requires { IsFields fields }
        ensures { result.bits ≡ word_of_object fields }
    {
        Word {
            bits: fields.version as u64 * VERSION
                + fields.left as u64 * LEFT
                + fields.inside as u64 * READER
                + u64::from(fields.writer),
        }
    }

    /// What the word says.
    pub fn fields(self) -> Fields
        ensures value { result ≡ fields_of self.bits }
        ensures fits { IsFields result }
        ensures word { word_of_object result ≡ self.bits }
    {
        Fields {
            version: self.version(),
            left: self.left(),
            inside: (self.bits / READER % (LEFT / READER)) as u8,
            writer: self.bits % READER == 1,
        }
    }

    /// The version that it says.
    pub fn version(self) -> u32
        ensures { result ≡ (fields_of self.bits).version }
    {
        (self.bits / VERSION) as u32
    }

    /// How many readers have left, as it says.
    pub fn left(self) -> u32
        ensures { result ≡ (fields_of self.bits).left }
    {
        (self.bits / LEFT % (VERSION / LEFT)) as u32
    }

    /// Whether a reader may enter: no writer is inside.
    pub fn can_read(self) -> bool
        ensures { IsTrue result ↔ Admitted Reading (fields_of self.bits) }
    {
        self.bits % READER == 0
    }

    /// Whether a writer may enter: no thread is inside.
    pub fn can_write(self) -> bool
        ensures { IsTrue result ↔ Admitted Writing (fields_of self.bits) }
    {
        self.bits % LEFT == 0
    }

    /// The word once the writer who is inside has left: the next version alone.
    pub fn next_version(self) -> Word
        requires { (fields_of self.bits).version + 1 < 2 ^ 32 }
        ensures { result.bits ≡ word_of_object (left_by Writing (fields_of self.bits)) }
    {
        Word {
            bits: (u64::from(self.version()) + 1) * VERSION,
        }
    }
}
