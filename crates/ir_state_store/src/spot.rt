//! An object by its words' number.

ghost use Rattle.std.specs.Prelude.{◌≡◌, IfOk};

use crate::number::short;
use ir_object::Word;
use std::alloc::AllocError;

/// An object in 12 bytes: its word, and the number of its contents.
#[derive(Clone, Copy, Debug, PartialEq, Eq)]
pub struct Spot {
    /// The number of its contents.
    pub words: u32,
    /// The lower half of its word: all but the version.
    pub low: u32,
    /// The upper half of its word: the version.
    pub high: u32,
}

impl Spot {
    ghost use Rattle.ir_state_store.specs.Nodes.{word_in};

    /// The object with this word, and with contents of this number.
    ///
    /// # Errors
    /// The number is above 2^32 - 1.
    pub fn of(words: usize, word: Word) -> Result<Spot, AllocError>
        ensures words { IfOk result (λ spot. spot.words ≡ words) }
        ensures word { IfOk result (λ spot. word_in spot ≡ word.bits) }
    {
        Ok(Spot {
            words: short(words)?,
            low: (word.bits % Word::VERSION) as u32,
            high: (word.bits / Word::VERSION) as u32,
        })
    }

    /// Its word.
    pub fn word(self) -> Word
        ensures { result.bits ≡ word_in self }
    {
        Word {
            bits: self.high as u64 * Word::VERSION + self.low as u64,
        }
    }
}
