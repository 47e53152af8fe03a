//! Marks of registers at the points of a code.

ghost use Rattle.std.specs.Prelude.{◌≡◌, ◌≤◌, ◌<◌, ◌+◌, ◌*◌, ◌%◌, ◌^◌, ℕ, true, false, length, replicate, slice_set, IfOk, OnOk};
ghost use Rattle.ir_image.specs.Guest.{code_start};
ghost use Rattle.ir_liveness.specs.Flow.{call_limit};
ghost use Rattle.ir_liveness.specs.Table.{is_marked};
ghost use Rattle.ir_liveness.specs.Marks.{places_of_word};

use crate::flow::CALL_LIMIT;
use ir_image::CODE_START;
use ir_mach::REGISTERS;
use std::alloc::{AllocError, Global};
use std::marker::Model;

/// How many marks a call has at a word: those of the registers.
pub const MARKS_EACH: usize = REGISTERS as usize;

/// How many places there are for each word: 14 calls of 32 registers.
pub const MARKS_A_WORD: usize = 448;

// The most words of code below the end of all addresses.
const MOST_WORDS: usize = 0x3fff_c000;

/// The marks of registers at each point of a code, and which are marked at any word; in clauses the marks.
#[derive(Drop)]
pub struct Marks {
    marks: Vec<bool>,
    anywhere: Vec<bool>,
}

impl Model for Marks {
    ghost use Rattle.std.specs.Prelude.{◌≡◌, Bool, List, length};
    ghost use Rattle.ir_liveness.specs.Marks.{AreAnywhere, places_of_word};

    ghost Value = { List Bool };

    ghost view = { λ m. m.marks.items };

    ghost invariant = { λ m. (length m.anywhere.items ≡ places_of_word) × AreAnywhere m.marks.items m.anywhere.items };
}

/// Whether a register is marked at a point.
pub fn is_marked(marks: &[bool], pc: u32, number: u32, register: u8) -> bool
    ensures { result ≡ is_marked marks.now (record { pc = pc; number = number }) register }
{
    if pc % 4 != 0 {
        return true;
    }
    if pc < CODE_START {
        return false;
    }
    let word = ((pc - CODE_START) / 4) as usize;
    let place = (word * CALL_LIMIT as usize + number as usize) * MARKS_EACH + register as usize;
    place < marks.len() && marks[place]
}

impl Marks {
    /// No marks, for the points of so many words.
    ///
    /// # Errors
    /// Out of memory, also where not all of the words have addresses.
    pub fn new(alloc: Global, words: usize) -> Result<Marks, AllocError>
        ensures none { IfOk result (λ m. m ≡ replicate (words * places_of_word) false) }
        ensures few { OnOk result (code_start + 4 * words ≤ 2 ^ 32) }
    {
        if words > MOST_WORDS {
            return Err(AllocError);
        }
        let marks = vec![in alloc; false; words * MARKS_A_WORD]?;
        let anywhere = vec![in alloc; false; MARKS_A_WORD]?;
        Ok(Marks { marks, anywhere })
    }

    /// Whether a register is marked at a point.
    pub fn is_marked(&self, pc: u32, number: u32, register: u8) -> bool
        ensures { result ≡ is_marked self.now (record { pc = pc; number = number }) register }
    {
        is_marked(self.marks.as_slice(), pc, number, register)
    }

    /// Whether a register is marked at any word where a7 asks for this call.
    pub fn is_marked_anywhere(&self, number: u32, register: u8) -> bool
        requires call { number < call_limit }
        requires register { register < 32 }
        ensures found { result ≡ true → (next : ℕ) × (next % 4 ≡ 0) × (is_marked self.now (record { pc = next; number = number }) register ≡ true) }
        ensures none { result ≡ false → (next : ℕ) → next % 4 ≡ 0 → is_marked self.now (record { pc = next; number = number }) register ≡ true → ⊥ }
    {
        self.anywhere[number as usize * MARKS_EACH + register as usize]
    }

    /// Marks a place of a word, by its order.
    pub fn mark(&mut self, word: usize, place: usize)
        requires within { word * places_of_word + place < length self.old }
        requires low { place < places_of_word }
        ensures { self.new ≡ slice_set self.old (word * places_of_word + place) true }
    {
        self.marks[word * MARKS_A_WORD + place] = true;
        self.anywhere[place] = true;
    }

    /// The marks alone.
    pub fn into_list(self) -> Vec<bool>
        ensures { result.items ≡ self }
    {
        self.marks
    }
}
