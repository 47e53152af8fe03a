//! How far an answer has come.

ghost use Rattle.std.specs.Prelude.{◌≡◌, [], ◌∷◌, ◌++◌, take};
ghost use Rattle.ir_names.specs.Naming.{line_start, most_word_bytes, place_of_next_word};

use crate::naming::{is_end, next_object, next_place, thing_at};
use crate::place::Place;
use crate::thing::Thing;
use arrayvec::ArrayVec;
use ir_stream::append;
use std::marker::Model;

// How many bytes of a word are kept: one more than the longest number has.
const MOST_WORD_BYTES: usize = 11;

/// How far an answer has come.
#[derive(Debug, Drop)]
pub struct Reached {
    // The bytes of its last word, as many as can matter.
    word: ArrayVec<u8, MOST_WORD_BYTES>,
    place: Place,
    // The object that was mentioned last.
    object: Option<u64>,
    // Whether its lines begin with addresses.
    lists: bool,
}

impl Model for Reached {
    ghost use Rattle.ir_names.specs.Naming.{Reached};

    ghost Value = { Reached };

    ghost view = { λ r. record { word = r.word.items; place = r.place; object = r.object; lists = r.lists } };
}

// Puts a byte at the end of a word, or drops it where the word has as many as are kept.
fn keep_byte(word: &mut ArrayVec<u8, MOST_WORD_BYTES>, byte: u8)
    ensures { word.new.items ≡ take most_word_bytes (word.old.items ++ byte ∷ []) }
{
    if !word.is_full() {
        word.push(byte);
    }
}

// Where a line begins.
fn line_start(lists: bool) -> Place
    ensures { result ≡ line_start lists }
{
    if lists { Place::Begin } else { Place::Other }
}

// Where the next word is, after a byte that ends a word at a place.
fn place_after(lists: bool, place: Place, word: &[u8], byte: u8) -> Place
    ensures { result ≡ place_of_next_word lists place word.now byte }
{
    if byte == b'\n' {
        line_start(lists)
    } else {
        next_place(place, word)
    }
}

impl Reached {
    ghost use Rattle.ir_names.specs.Naming.{answer_start, after_bytes, after_word, after_byte, thing_at};

    /// The start of an answer, whose lines may begin with addresses.
    pub fn new(lists: bool) -> Reached
        ensures { result ≡ answer_start lists }
    {
        Reached {
            word: ArrayVec::new(),
            place: line_start(lists),
            object: None,
            lists,
        }
    }

    /// The same.
    pub fn copied(&self) -> Reached
        ensures { result ≡ self.now }
    {
        let mut word = ArrayVec::new();
        append(&mut word, self.word.as_slice());
        Reached {
            word,
            place: self.place,
            object: self.object,
            lists: self.lists,
        }
    }

    /// What its last word names, if it is a number of something.
    pub fn thing(&self) -> Option<Thing>
        ensures { result ≡ thing_at self.now.place self.now.object self.now.word }
    {
        thing_at(self.place, self.object, self.word.as_slice())
    }

    // After a byte that ends a word.
    fn end_word(&mut self, byte: u8)
        ensures { self.new ≡ after_word self.old byte }
    {
        let word = self.word.as_slice();
        let object = next_object(self.place, self.object, word);
        self.place = place_after(self.lists, self.place, word, byte);
        self.object = object;
        self.word.clear();
    }

    /// After a byte.
    pub fn step(&mut self, byte: u8)
        ensures { self.new ≡ after_byte self.old byte }
    {
        if is_end(byte) {
            self.end_word(byte);
        } else {
            keep_byte(&mut self.word, byte);
        }
    }

    /// After several bytes.
    pub fn take(&mut self, bytes: &[u8])
        ensures { self.new ≡ after_bytes self.old bytes.now }
    {
        for byte in bytes {
            self.step(*byte);
        }
    }
}
