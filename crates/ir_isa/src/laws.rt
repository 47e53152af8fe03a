//! What holds of words and instructions, for the proofs of callers.

ghost use Rattle.std.specs.Prelude.{◌≡◌, ℕ, ◌<◌, ◌^◌, ◌↔◌, Some};
ghost use Rattle.ir_isa.specs.Code.{IsCode};
ghost use Rattle.ir_isa.specs.Decoded.{instruction_of};
ghost use Rattle.ir_isa.specs.Words.{word_of};
ghost use Rattle.ir_isa.specs.declared.inst.Inst.{Inst};

/// No word has two instructions.
pub fn one_instruction()
    ensures { (word : ℕ) (i j : Inst) → IsCode word i → IsCode word j → i ≡ j }
{}

/// Words of 32 bits with one instruction are one word.
pub fn one_word()
    ensures { (v w : ℕ) (i : Inst) → v < 2 ^ 32 → w < 2 ^ 32 → IsCode v i → IsCode w i → v ≡ w }
{}

/// The instruction that is found for a word is the one whose code it is.
pub fn found_by_code()
    ensures { (word : ℕ) (i : Inst) → (instruction_of word ≡ Some i) ↔ IsCode word i }
{}

/// A word of 32 bits with the code of an instruction is the instruction's word.
pub fn word_by_code()
    ensures { (word : ℕ) (i : Inst) → word < 2 ^ 32 → IsCode word i → word_of i ≡ word }
{}

/// The word of an instruction has 32 bits and is its code.
pub fn word_has_code()
    ensures fits { (i : Inst) → word_of i < 2 ^ 32 }
    ensures code { (i : Inst) → IsCode (word_of i) i }
{}

/// Decoding what was encoded gives the instruction again.
pub fn decodes_again()
    ensures { (i : Inst) → instruction_of (word_of i) ≡ Some i }
{}

/// Encoding what was decoded gives the word again.
pub fn encodes_again()
    ensures { (word : ℕ) (i : Inst) → word < 2 ^ 32 → instruction_of word ≡ Some i → word_of i ≡ word }
{}
