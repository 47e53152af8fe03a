//! An image in memory.

ghost use Rattle.std.specs.Prelude.{◌≡◌, ◌<◌, ◌≤◌, ◌*◌, length};
ghost use Rattle.ir_image.specs.Guest.{Guest, object_words, object_count, most_objects, most_object_words};
ghost use Rattle.ir_image.specs.Bounds.{IsGuest};

use crate::code::Code;
use crate::form::ImageForm;
use std::marker::Model;

/// A guest that is ready to run: entries, code, data and the objects' first words, within the limits of its form.
#[derive(Drop)]
pub struct Image {
    form: ImageForm,
    entries: Vec<u32>,
    code: Code,
    bytes: Vec<u8>,
    words: Vec<u32>,
}

impl Model for Image {
    ghost Value = { Guest };

    ghost view = { λ i. record { form = i.form; entries = i.entries.items; code = i.code; bytes = i.bytes.items; words = i.words.items } };

    ghost invariant = { λ i. IsGuest (record { form = i.form; entries = i.entries.items; code = i.code; bytes = i.bytes.items; words = i.words.items }) };
}

impl Image {
    /// The image of these parts.
    pub fn new(
        form: ImageForm,
        entries: Vec<u32>,
        code: Code,
        bytes: Vec<u8>,
        words: Vec<u32>,
    ) -> Image
        requires { IsGuest (record { form = form; entries = entries.items; code = code; bytes = bytes.items; words = words.items }) }
        ensures { result ≡ record { form = form; entries = entries.items; code = code; bytes = bytes.items; words = words.items } }
    {
        Image {
            form,
            entries,
            code,
            bytes,
            words,
        }
    }

    /// Its form.
    pub fn form(&self) -> ImageForm
        ensures value { result ≡ self.now.form }
        ensures within { IsGuest self.now }
    {
        self.form
    }

    /// What each thread's pc is at the start, in the order of the threads.
    pub fn entries(&self) -> &[u32]
        ensures value { result.now ≡ self.now.entries }
        ensures within { IsGuest self.now }
    {
        self.entries.as_slice()
    }

    /// The code, which all threads share.
    pub fn code(&self) -> &Code
        ensures value { result.now ≡ self.now.code }
        ensures within { IsGuest self.now }
    {
        &self.code
    }

    /// The data that each thread's private memory begins with.
    pub fn bytes(&self) -> &[u8]
        ensures value { result.now ≡ self.now.bytes }
        ensures within { IsGuest self.now }
    {
        self.bytes.as_slice()
    }

    /// The first words of the objects, `object_words` of each, in the order of the objects.
    #[tactic(auto, using(crate::proofs::Forms::guest_words_within))]
    pub fn words(&self) -> &[u32]
        ensures value { result.now ≡ self.now.words }
        ensures within { IsGuest self.now }
        ensures few { length result.now ≤ most_object_words * most_objects }
    {
        self.words.as_slice()
    }

    /// How many words each object has.
    pub fn object_words(&self) -> usize
        ensures value { result ≡ object_words self.now }
        ensures some { 0 < result }
        ensures few { result ≤ most_object_words }
    {
        self.form.limits().words
    }

    /// How many objects there are.
    #[tactic(auto, using(crate::proofs::Forms::guest_objects_within))]
    pub fn object_count(&self) -> usize
        ensures value { result ≡ object_count self.now }
        ensures few { result ≤ most_objects }
    {
        self.words.len() / self.object_words()
    }
}
