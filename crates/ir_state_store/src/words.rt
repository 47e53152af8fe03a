//! Contents of objects by their numbers, each of which is kept once.

ghost use Rattle.std.specs.Prelude.{◌≡◌, ◌<◌, ℕ, List, [], length, true, false, Some, None, slice_get, IfOk, IfSome};
ghost use Rattle.ir_image.specs.Guest.{most_object_words};
ghost use Rattle.ir_state_store.specs.Hashes as hashes;
ghost use Rattle.ir_state_store.specs.Table.{KeepsNumbers};
ghost use Rattle.ir_state_store.specs.Words.{EachWordOnce, EachFound};

use crate::hash::{after_words, empty_hash};
use crate::index::{Index, MOST_STEPS};
use crate::put::put;
use ir_image::MOST_OBJECT_WORDS;
use std::alloc::{AllocError, Global};
use std::marker::Model;

/// Contents of objects, by their numbers.
#[derive(Drop)]
pub struct Words {
    items: Vec<[u32; MOST_OBJECT_WORDS]>,
    index: Index,
}

impl Model for Words {
    ghost Value = { List (List ℕ) };

    ghost view = { λ w. w.items.items };

    ghost invariant = { λ w. EachWordOnce w.items.items × EachFound w.index w.items.items };
}

fn array_of(words: &[u32]) -> [u32; MOST_OBJECT_WORDS]
    requires { length words.now ≡ most_object_words }
    ensures { result ≡ words.now }
{
    let mut array = [0; MOST_OBJECT_WORDS];
    array.copy_from_slice(words);
    array
}

// Whether a number has these contents.
fn has(items: &[[u32; MOST_OBJECT_WORDS]], n: usize, words: &[u32]) -> bool
    ensures same { result ≡ true → slice_get items.now n ≡ Some words.now }
    ensures other { result ≡ false → slice_get items.now n ≡ Some words.now → ⊥ }
{
    match items.get(n) {
        Some(kept) => kept.as_slice() == words,
        None => false,
    }
}

// The number of these contents, which have this hash.
fn find(
    index: &Index,
    items: &[[u32; MOST_OBJECT_WORDS]],
    hash: u64,
    words: &[u32],
) -> Option<usize>
    requires found { EachFound index.now items.now }
    requires hash { hash ≡ hashes.after_numbers hashes.empty_hash words.now }
    ensures found { IfSome result (λ n. slice_get items.now n ≡ Some words.now) }
    ensures none { result ≡ None → (n : ℕ) → slice_get items.now n ≡ Some words.now → ⊥ }
{
    for steps in 0..MOST_STEPS {
        let n = index.at(hash, steps)?;
        if has(items, n, words) {
            return Some(n);
        }
    }
    None
}

impl Words {
    /// No contents.
    pub fn new(alloc: Global) -> Words
        ensures { result ≡ [] }
    {
        Words {
            items: Vec::new(alloc),
            index: Index::new(alloc),
        }
    }

    /// How many there are.
    pub fn len(&self) -> usize
        ensures { result ≡ length self.now }
    {
        self.items.len()
    }

    /// The contents of a number.
    pub fn get(&self, n: usize) -> [u32; MOST_OBJECT_WORDS]
        requires { n < length self.now }
        ensures { slice_get self.now n ≡ Some result }
    {
        self.items[n]
    }

    /// No two numbers have the same contents.
    pub fn each_once(&self)
        ensures { EachWordOnce self.now }
    {
        let _ = &self.items;
    }

    /// The number of these contents, which are added if they are new.
    ///
    /// # Errors
    /// Out of memory.
    pub fn number(&mut self, words: &[u32]) -> Result<usize, AllocError>
        requires { length words.now ≡ most_object_words }
        ensures keeps { KeepsNumbers self.old self.new }
        ensures found { IfOk result (λ n. slice_get self.new n ≡ Some words.now) }
        ensures one { IfOk result (λ n. (m : ℕ) → slice_get self.new m ≡ Some words.now → m ≡ n) }
    {
        let hash = after_words(empty_hash(), words);
        if let Some(n) = find(&self.index, self.items.as_slice(), hash, words) {
            return Ok(n);
        }
        let n = self.items.len();
        self.index.note(hash, n)?;
        put(&mut self.items, array_of(words))?;
        Ok(n)
    }
}
