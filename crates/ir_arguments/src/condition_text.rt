//! Conditions as they are written.

ghost use Rattle.std.specs.Prelude.{◌≡◌, ℕ, List, Some, None, IfOk, IsSome, MatchOption};
ghost use Rattle.std.specs.String.{string_bytes};
ghost use Rattle.ir_schedule.specs.Conditions.{as_condition};
ghost use Rattle.ir_schedule.specs.Spelling.{condition_of};

use ir_schedule::{Condition, condition_of};
use std::alloc::{AllocError, Global};
use std::marker::Model;

/// The text of a condition.
#[derive(Drop)]
pub struct ConditionText {
    text: String,
}

impl Model for ConditionText {
    ghost Value = { List ℕ };

    ghost view = { λ c. string_bytes c.text };

    ghost invariant = { λ c. IsSome (condition_of (string_bytes c.text)) };
}

impl ConditionText {
    /// A text, if it is a condition.
    ///
    /// # Errors
    /// Out of memory.
    pub fn new(alloc: Global, text: &str) -> Result<Option<ConditionText>, AllocError>
        ensures { IfOk result (λ read. MatchOption read (condition_of text.now ≡ None) (λ c. c ≡ text.now)) }
    {
        if condition_of(alloc, text.as_bytes())?.is_none() {
            return Ok(None);
        }
        let text = String::from_str(alloc, text)?;
        Ok(Some(ConditionText { text }))
    }

    /// The text.
    pub fn as_str(&self) -> &str
        ensures { result.now ≡ self.now }
    {
        self.text.as_str()
    }

    /// The condition that it writes.
    ///
    /// # Errors
    /// Out of memory.
    pub fn condition(&self, alloc: Global) -> Result<Condition<'_>, AllocError>
        ensures { IfOk result (λ condition. condition_of self.now ≡ Some (as_condition condition)) }
    {
        match condition_of(alloc, self.text.as_bytes())? {
            Some(condition) => Ok(condition),
            None => unreachable!(),
        }
    }
}
