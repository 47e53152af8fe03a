//! The stack of an evaluation.

ghost use Rattle.std.specs.Prelude.{◌≡◌, ◌<◌, [], ◌∷◌, length, MatchOption, OnSome, slice_get};
ghost use Rattle.ir_agent.specs.Evaluation.{most_stack, pushed, LeavesStack};

use crate::evaluate_err::EvaluateErr;
use arrayvec::ArrayVec;
use std::marker::Model;

/// The most numbers on a stack.
pub const MOST_STACK: usize = 100;

/// Numbers, at most 100. In clauses the top is first.
#[derive(Drop)]
pub struct Stack {
    numbers: ArrayVec<u64, MOST_STACK>,
}

impl Model for Stack {
    ghost use Rattle.std.specs.Prelude.{List, ℕ, reverse};

    ghost Value = { List ℕ };

    ghost view = { λ s. reverse s.numbers.items };
}

impl Stack {
    /// No number.
    pub fn new() -> Stack
        ensures { result ≡ [] }
    {
        Stack {
            numbers: ArrayVec::new(),
        }
    }

    /// Puts a number on top.
    ///
    /// # Errors
    /// `StackFull`.
    pub fn push(&mut self, number: u64) -> Result<(), EvaluateErr>
        ensures { LeavesStack result self.new (pushed number self.old) }
    {
        if self.numbers.is_full() {
            return Err(EvaluateErr::StackFull);
        }
        self.numbers.push(number);
        Ok(())
    }

    /// Puts a number on top, in the room of one that was taken.
    pub fn put_back(&mut self, number: u64)
        requires { length self.old < most_stack }
        ensures { self.new ≡ number ∷ self.old }
    {
        self.numbers.push(number);
    }

    /// Takes the number on top, if there is one.
    pub fn pop(&mut self) -> Option<u64>
        ensures taken { MatchOption result (self.old ≡ []) (λ n. self.old ≡ n ∷ self.new) }
        ensures room { OnSome result (length self.new < most_stack) }
    {
        self.numbers.is_full();
        self.numbers.pop()
    }

    /// The number that is this far below the top, if there is one.
    pub fn below_top(&self, depth: u64) -> Option<u64>
        ensures { result ≡ slice_get self.now depth }
    {
        let count = self.numbers.len();
        if depth >= count as u64 {
            return None;
        }
        Some(self.numbers.as_slice()[count - 1 - depth as usize])
    }
}
