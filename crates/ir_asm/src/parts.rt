//! A guest that is put together.

ghost use Rattle.std.specs.Prelude.{◌≡◌, ◌+◌, ◌*◌, ◌≤◌, ◌++◌, [], ◌∷◌, length, take, drop, replicate, IfOk, OnOk};
ghost use Rattle.ir_image.specs.Guest.{limits_of, most_object_words, object_words, padded_to};
ghost use Rattle.ir_image.specs.Padded.{padded};
ghost use Rattle.ir_asm.specs.Passes.{with_code, with_object_line, with_entry_line};

use ir_image::{CODE_START, ImageForm, MOST_OBJECT_WORDS};
use std::alloc::{AllocError, Global};
use std::marker::Model;

/// The form, entries, code, data and the objects' first words; in clauses the guest of these.
#[derive(Drop)]
pub struct Parts {
    pub form: ImageForm,
    pub entries: Vec<u32>,
    pub code: Vec<u32>,
    pub bytes: Vec<u8>,
    pub words: Vec<u32>,
}

impl Model for Parts {
    ghost use Rattle.ir_image.specs.Guest.{Guest};

    ghost Value = { Guest };

    ghost view = { λ p. record { form = p.form; entries = p.entries.items; code = p.code.items; bytes = p.bytes.items; words = p.words.items } };
}

// These words and then zeros, as many as an object of any form has.
fn padded(words: &[u32]) -> [u32; MOST_OBJECT_WORDS]
    requires { length words.now ≤ most_object_words }
    ensures { result ≡ padded words.now }
{
    let mut all = [0; MOST_OBJECT_WORDS];
    all[..words.len()].copy_from_slice(words);
    all
}

// Puts `count` words at a place: these and then zeros.
fn put_first(all: &mut [u32], start: usize, count: usize, words: &[u32])
    requires few { length words.now ≤ count }
    requires most { count ≤ most_object_words }
    requires there { start + count ≤ length all.old }
    ensures { all.new ≡ take start all.old ++ (padded_to count words.now ++ drop (start + count) all.old) }
{
    let firsts = padded(words);
    all[start..start + count].copy_from_slice(&firsts[..count]);
}

impl Parts {
    /// Parts that have `objects` objects of zeros, and nothing else.
    pub fn new(alloc: Global, form: ImageForm, objects: u32) -> Result<Parts, AllocError>
        ensures { IfOk result (λ p. p ≡ record { form = form; entries = []; code = []; bytes = []; words = replicate ((limits_of form).words * objects) 0 }) }
    {
        Ok(Parts {
            form,
            entries: Vec::new(alloc),
            code: Vec::new(alloc),
            bytes: Vec::new(alloc),
            words: vec![in alloc; 0; form.words_of(objects)]?,
        })
    }

    /// More code.
    pub fn add_code(&mut self, words: &[u32]) -> Result<(), AllocError>
        ensures { OnOk result (self.new ≡ with_code self.old words.now) }
    {
        self.code.extend_from_slice(words)
    }

    /// More data.
    pub fn add_bytes(&mut self, bytes: &[u8]) -> Result<(), AllocError>
        ensures { OnOk result (self.new ≡ record self.old { bytes = self.old.bytes ++ bytes.now }) }
    {
        self.bytes.extend_from_slice(bytes)
    }

    /// One more thread.
    pub fn add_entry(&mut self, entry: u32) -> Result<(), AllocError>
        ensures { OnOk result (self.new ≡ record self.old { entries = self.old.entries ++ entry ∷ [] }) }
    {
        self.entries.push(entry)?;
        Ok(())
    }

    /// The first words of an object.
    pub fn set_object(&mut self, object: u32, words: &[u32])
        requires few { length words.now ≤ object_words self.old }
        requires there { object_words self.old * object + object_words self.old ≤ length self.old.words }
        ensures { self.new ≡ with_object_line self.old object words.now }
    {
        let start = self.form.words_of(object);
        let count = self.form.limits().words;
        put_first(self.words.as_mut_slice(), start, count, words);
    }

    /// One thread at the start of the code, where there is none yet.
    pub fn add_first_entry(&mut self) -> Result<(), AllocError>
        ensures { OnOk result (self.new ≡ with_entry_line self.old) }
    {
        if self.entries.is_empty() {
            return self.add_entry(CODE_START);
        }
        Ok(())
    }
}
