//! What a thread in hand has: registers, and bytes at addresses.

ghost use Rattle.std.specs.Prelude.{◌≡◌, ◌≤◌, ◌<◌, length, slice_index, slice_get};
ghost use Rattle.ir_image.specs.Guest.{most_object_words, word_at_pc};
ghost use Rattle.ir_mach.specs.Core.{memory_size};
ghost use Rattle.ir_mach.specs.Execution.{byte_at};
ghost use Rattle.ir_mach.specs.Within.{byte_in_word};
ghost use Rattle.ir_gdb.specs.Reads.{register_words, word_byte};
ghost use Rattle.ir_gdb.specs.Sight.{byte_in_sight, object_byte_seen, register_in_sight, seen_in};
ghost use Rattle.ir_gdb.specs.Sight as sight;
ghost use Rattle.ir_gdb.specs.Conditions.{any_holds};

use crate::registers::word_of;
use ir_agent::{Seen, holds};
use ir_hits::{OBJECT_SIZE, OBJECTS_START};
use ir_image::{CODE_START, Code, Image, MEMORY_START};
use ir_mach::Mach;
use ir_object::Object;
use ir_packet::Condition;
use std::marker::Model;

// A byte of a word, from its lowest up.
fn byte_of(word: u32, place: u32) -> u8
    requires { place < 4 }
    ensures { result ≡ byte_in_word word place }
{
    word.to_le_bytes()[place as usize]
}

// The word of the code in which an address lies.
fn code_word(code: &Code, address: u32) -> Option<u32>
    ensures { result ≡ word_at_pc code.now address }
{
    if address < CODE_START {
        return None;
    }
    code.words()
        .get(((address - CODE_START) / 4) as usize)
        .copied()
}

// The byte at an address of private memory or the code, if there is one.
fn byte_at(code: &Code, memory: &[u8], address: u32) -> Option<u8>
    requires { length memory.now ≡ memory_size }
    ensures { result ≡ byte_at code.now memory.now address }
{
    if address >= MEMORY_START && ((address - MEMORY_START) as usize) < memory.len() {
        return Some(memory[(address - MEMORY_START) as usize]);
    }
    Some(byte_of(code_word(code, address)?, address % 4))
}

// The byte of an object's first words, or 0 behind them.
fn object_byte(contents: &[u32], words: usize, place: u32) -> u8
    requires contents { length contents.now ≡ most_object_words }
    requires words { words ≤ most_object_words }
    requires place { place < 64 }
    ensures { result ≡ word_byte words (slice_index contents.now) place }
{
    let word = (place / 4) as usize;
    if word < words {
        return byte_of(contents[word], place % 4);
    }
    0
}

// The register of a number, as gdb numbers them, if there is one.
#[tactic(auto, using(crate::proofs::Words::known_register_is_there, crate::proofs::Words::no_register_behind_pc))]
fn register_of(mach: &Mach, number: u64) -> Option<u32>
    ensures { result ≡ slice_get (register_words mach.now) number }
{
    mach.pc();
    if number > 32 {
        return None;
    }
    Some(word_of(mach, number as u32))
}

/// A guest, a thread of it, and its objects.
#[derive(Drop)]
pub struct Sight<'a> {
    image: &'a Image,
    mach: &'a Mach,
    objects: &'a [Object],
}

impl<'a> Model for Sight<'a> {
    ghost use Rattle.ir_gdb.specs.Sight as sight;

    ghost Value = { sight.Sight };

    ghost view = { λ s. record { guest = s.image.now; core = s.mach.now; objects = s.objects.now } };
}

impl<'a> Sight<'a> {
    /// What a thread of a guest has.
    pub fn new(image: &'a Image, mach: &'a Mach, objects: &'a [Object]) -> Sight<'a>
        ensures { result ≡ sight.sight_of image.now mach.now objects.now }
    {
        Sight {
            image,
            mach,
            objects,
        }
    }

    // The byte of the objects at an address from their start on.
    fn object_byte(&self, offset: u32) -> Option<u8>
        ensures { result ≡ object_byte_seen self.now offset }
    {
        let number = (offset / OBJECT_SIZE) as usize;
        if number >= self.image.object_count() {
            return None;
        }
        let object = self.objects.get(number)?;
        Some(object_byte(
            object.contents(),
            self.image.object_words(),
            offset % OBJECT_SIZE,
        ))
    }

    /// The byte at an address, if there is one.
    pub fn byte_at(&self, address: u32) -> Option<u8>
        ensures { result ≡ byte_in_sight self.now address }
    {
        if address >= OBJECTS_START {
            return self.object_byte(address - OBJECTS_START);
        }
        byte_at(self.image.code(), self.mach.memory(), address)
    }
}

impl<'a> Seen for Sight<'a> {
    ghost use Rattle.ir_gdb.specs.Sight.{byte_in_sight, register_in_sight};

    ghost registers = { λ s. register_in_sight s };

    ghost bytes = { λ s. byte_in_sight s };

    fn register(&self, number: u64) -> Option<u32> {
        register_of(self.mach, number)
    }

    fn byte(&self, address: u32) -> Option<u8> {
        self.byte_at(address)
    }
}

/// Whether one of several conditions is met.
#[tactic(auto, unfolding(crate::specs::Conditions::any_holds))]
pub fn any_holds(sight: &Sight<'_>, conditions: &[Condition]) -> bool
    ensures { result ≡ any_holds (seen_in sight.now) conditions.now }
{
    match conditions {
        [] => false,
        [first, rest @ ..] => holds(sight, first.code()) || any_holds(sight, rest),
    }
}
