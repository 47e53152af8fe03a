//! An object: its word and its contents.

ghost use Rattle.ir_image.specs.Guest.{most_object_words};
ghost use Rattle.ir_object.specs.Cell.{Cell};
ghost use Rattle.ir_object.specs.Standing.{Admitted, CanLeave, StandsFor};
ghost use Rattle.ir_runs.specs.Machine.{Object, acted, Entered, Left, Stored};
ghost use Rattle.ir_object.specs.Word.{IsFields, fields_of, entered_word, left_by};
ghost use Rattle.ir_runs.specs.declared.access.Access.TheVariants.{Reading, Writing};
ghost use Rattle.std.specs.Prelude.{◌≡◌, ◌<◌, ◌≢◌, ◌↔◌, ℕ, false, length, slice_index, slice_set, IsTrue, Some, None};

use crate::fields::Fields;
use crate::word::Word;
use ir_image::MOST_OBJECT_WORDS;
use ir_runs::Access;
use std::marker::Model;

/// An object: a word that says who is inside and which version it has, and its contents.
#[derive(Drop)]
pub struct Object {
    word: Word,
    contents: [u32; MOST_OBJECT_WORDS],
}

impl Model for Object {
    ghost Value = { Cell };

    ghost view = { λ o. record { fields = fields_of o.word.bits; words = o.contents } };
}

impl Object {
    /// The object with these contents, which no thread has entered.
    pub fn new(contents: [u32; MOST_OBJECT_WORDS]) -> Object
        ensures { result ≡ record { fields = record { version = 0; left = 0; inside = 0; writer = false }; words = contents } }
    {
        Object {
            word: Word { bits: 0 },
            contents,
        }
    }

    /// The object of this word and these contents.
    pub fn from_parts(word: Word, contents: [u32; MOST_OBJECT_WORDS]) -> Object
        ensures { result ≡ record { fields = fields_of word.bits; words = contents } }
    {
        Object { word, contents }
    }

    /// An equal object.
    pub fn copy(&self) -> Object
        ensures { result ≡ self.now }
    {
        Object {
            word: self.word,
            contents: self.contents,
        }
    }

    /// Its word.
    pub fn word(&self) -> Word
        ensures { fields_of result.bits ≡ self.now.fields }
    {
        self.word
    }

    /// What its word says.
    pub fn fields(&self) -> Fields
        ensures value { result ≡ self.now.fields }
        ensures fits { IsFields result }
    {
        self.word.fields()
    }

    /// Its contents, `ir_image::MOST_OBJECT_WORDS` words, of which a guest has the first.
    pub fn contents(&self) -> &[u32]
        ensures value { result.now ≡ self.now.words }
        ensures count { length result.now ≡ most_object_words }
    {
        &self.contents
    }

    /// Whether a reader may enter: no writer is inside.
    pub fn can_read(&self) -> bool
        ensures { IsTrue result ↔ Admitted Reading self.now.fields }
    {
        self.word.can_read()
    }

    /// Whether a writer may enter: no thread is inside.
    pub fn can_write(&self) -> bool
        ensures { IsTrue result ↔ Admitted Writing self.now.fields }
    {
        self.word.can_write()
    }

    /// A thread enters.
    #[tactic(auto, using(crate::proofs::Words::reader_entry_fields, crate::proofs::Words::writer_entry_fields))]
    pub fn enter(&mut self, access: Access)
        requires admitted { Admitted access self.old.fields }
        requires fits { IsFields (entered_word access self.old.fields) }
        ensures { self.new ≡ record self.old { fields = entered_word access self.old.fields } }
    {
        match access {
            Access::Reading => self.word.bits += Word::READER_ENTERS,
            Access::Writing => self.word.bits += Word::WRITER_ENTERS,
        }
    }

    /// A thread that is inside leaves.
    #[tactic(auto, using(crate::proofs::Words::word_reader_leave_fields, crate::proofs::Words::writer_leave_fields))]
    pub fn leave(&mut self, access: Access)
        requires inside { CanLeave access self.old.fields }
        requires fits { IsFields (left_by access self.old.fields) }
        ensures { self.new ≡ record self.old { fields = left_by access self.old.fields } }
    {
        match access {
            Access::Reading => self.word.bits += Word::READER_LEAVES,
            Access::Writing => self.word = self.word.next_version(),
        }
    }

    /// The word of this index, below `ir_image::MOST_OBJECT_WORDS`.
    pub fn get(&self, index: u8) -> u32
        requires { index < most_object_words }
        ensures { result ≡ slice_index self.now.words index }
    {
        self.contents()[index as usize]
    }

    /// Writes the word of this index, below `ir_image::MOST_OBJECT_WORDS`.
    pub fn put(&mut self, index: u8, value: u32)
        requires { index < most_object_words }
        ensures { self.new ≡ record self.old { words = slice_set self.old.words index value } }
    {
        self.contents[index as usize] = value;
    }
}
