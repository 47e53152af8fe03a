//! What counts of outcomes, looked up by a hash.

ghost use Rattle.std.specs.Prelude.{◌≡◌, true, false, [], IfOk, OnOk};
ghost use Rattle.ir_within.specs.Judging.{HasSame, HoldsAlso};
ghost use Rattle.ir_within.specs.Seen.{value_of};

use crate::seen::Seen;
use indexmap::IndexSet;
use std::alloc::{AllocError, Global};
use std::marker::Model;

/// What counts of outcomes, each kept once and looked up by a hash; in clauses the list of them.
#[derive(Drop)]
pub struct SeenSet {
    kept: IndexSet<Seen>,
}

impl Model for SeenSet {
    ghost use Rattle.std.specs.Prelude.{List, map};
    ghost use Rattle.ir_schedule.specs.Conditions.{EndState};
    ghost use Rattle.ir_within.specs.Seen.{value_of};

    ghost Value = { List EndState };

    ghost view = { λ s. map value_of s.kept.keys };
}

impl SeenSet {
    /// None yet.
    pub fn new(alloc: Global) -> SeenSet
        ensures { result ≡ [] }
    {
        SeenSet {
            kept: IndexSet::new(alloc),
        }
    }

    /// Whether one that is kept is the same: of those that have the same hash each is compared.
    pub fn has(&self, one: &Seen) -> bool
        ensures some { result ≡ true → HasSame self.now (value_of one.now) }
        ensures none { result ≡ false → HasSame self.now (value_of one.now) → ⊥ }
    {
        self.kept.contains(one)
    }

    /// Keeps one, if none that is kept is the same. Whether none was.
    ///
    /// # Errors
    /// Out of memory.
    pub fn add(&mut self, one: Seen) -> Result<bool, AllocError>
        ensures also { OnOk result (HoldsAlso self.old (value_of one) self.new) }
        ensures known { IfOk result (λ is_new. is_new ≡ false → HasSame self.old (value_of one)) }
        ensures fresh { IfOk result (λ is_new. is_new ≡ true → HasSame self.old (value_of one) → ⊥) }
    {
        let is_new = self.kept.insert(one)?;
        Ok(is_new)
    }
}
