//! Turns of threads that are known: what a thread and some objects become is the same in each state.

ghost use Rattle.std.specs.Prelude.{◌≡◌, ◌⊎◌, ◌<◌, ◌++◌, [], ◌∷◌, ℕ, List, Some, length, slice_get, IfOk, IfSome};
ghost use Rattle.ir_graph.specs.declared.known.Turn.{Turn};

use crate::known::Turn;
use ir_state_store::{Hints, Spot, hash_of_numbers};
use std::alloc::{AllocError, Global};
use std::marker::Model;

/// Turns that are known, by the thread and the objects before and whether a try is refused.
#[derive(Drop)]
pub struct Ahead {
    turns: Vec<Turn>,
    hints: Hints,
    firsts: Hints,
}

impl Model for Ahead {
    ghost Value = { List Turn };

    ghost view = { λ a. a.turns.items };
}

/// The hash of a thread's number, and whether its try is refused.
pub fn thread_key(from: usize, refused: bool) -> u64 {
    hash_of_numbers(&[from as u64, refused as u64])
}

/// The hash, after an object too.
pub fn key_after(key: u64, spot: Spot) -> u64 {
    hash_of_numbers(&[key, spot.words as u64, spot.word().bits])
}

// The hash of a turn's thread and of its objects.
fn key_of(turn: &Turn) -> u64 {
    let mut key = thread_key(turn.from, turn.refused);
    for spot in &turn.spots {
        key = key_after(key, *spot);
    }
    key
}

impl Ahead {
    /// No turns.
    pub fn new(alloc: Global) -> Ahead
        ensures { result ≡ [] }
    {
        Ahead {
            turns: Vec::new(alloc),
            hints: Hints::new(alloc),
            firsts: Hints::new(alloc),
        }
    }

    /// Where its memory comes from.
    pub fn alloc(&self) -> Global {
        *self.turns.allocator()
    }

    /// The turn of a number.
    pub fn turn(&self, i: usize) -> &Turn
        requires { i < length self.now }
        ensures { slice_get self.now i ≡ Some result.now }
    {
        &self.turns[i]
    }

    /// Some turn of the thread of a number, if one is known.
    pub fn first(&self, from: usize) -> Option<&Turn>
        ensures turn { IfSome result (λ turn. (i : ℕ) × (slice_get self.now i ≡ Some turn.now)) }
        ensures from { IfSome result (λ turn. turn.now.from ≡ from) }
    {
        let i = self.firsts.number(from as u64, self.turns.len())?;
        let turn = &self.turns[i];
        if turn.from == from { Some(turn) } else { None }
    }

    /// The number of the turn that was noted last with this hash.
    pub fn noted(&self, key: u64) -> Option<usize>
        ensures { IfSome result (λ i. i < length self.now) }
    {
        self.hints.number(key, self.turns.len())
    }

    /// Notes a turn; its number.
    ///
    /// # Errors
    /// Out of memory.
    pub fn note(&mut self, turn: Turn) -> Result<usize, AllocError>
        ensures either { (self.new ≡ self.old) ⊎ (self.new ≡ self.old ++ turn ∷ []) }
        ensures found { IfOk result (λ i. slice_get self.new i ≡ Some turn) }
    {
        let i = self.turns.len();
        self.firsts.note(turn.from as u64, i)?;
        self.hints.note(key_of(&turn), i)?;
        self.turns.push(turn)?;
        Ok(i)
    }
}
