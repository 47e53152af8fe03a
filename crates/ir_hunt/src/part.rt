//! What is tried of a hunt's seeds at a time.

ghost use Rattle.std.specs.Prelude.{◌≡◌, ◌≤◌, ◌<◌, ◌+◌, ◌-◌, None, IfOk, true, false};
ghost use Rattle.std.specs.String.{string_bytes};

use ir_schedule::Seeds;
use std::alloc::{AllocError, Global};

/// Seeds that were tried, from the first to the last.
#[derive(Drop)]
pub struct Part {
    /// The seeds.
    pub seeds: Seeds,
    /// How many of them were left out.
    pub left_out: u128,
    /// The list that spells the order of the last seed's run, if that is found. None of the others is.
    pub list: Option<String>,
    ghost some: { seeds.first ≤ seeds.last },
    ghost few: { left_out ≤ seeds.last + 1 - seeds.first },
}

impl Part {
    ghost use Rattle.ir_hunt.specs.Hunt.{Hunt};
    ghost use Rattle.ir_hunt.specs.Parts.{IsTried};

    /// Whether none is found of it, and it ends before this seed.
    pub fn ends_before(&self, last: u64) -> bool
        ensures before { result ≡ true → (self.now.list ≡ None) × (self.now.seeds.last < last) }
        ensures other { result ≡ false → self.now.list ≡ None → last ≤ self.now.seeds.last }
    {
        self.list.is_none() && self.seeds.last < last
    }

    /// This part and the next.
    pub fn then(self, next: Part) -> Part
        requires none { self.list ≡ None }
        requires next { next.seeds.first ≡ self.seeds.last + 1 }
        ensures first { result.seeds.first ≡ self.seeds.first }
        ensures last { result.seeds.last ≡ next.seeds.last }
        ensures list { result.list ≡ next.list }
        ensures tried { (hunt : Hunt) → IsTried hunt self → IsTried hunt next → IsTried hunt result }
    {
        Part {
            seeds: Seeds {
                first: self.seeds.first,
                last: next.seeds.last,
            },
            left_out: self.left_out + next.left_out,
            list: next.list,
        }
    }

    /// An equal part.
    ///
    /// # Errors
    /// Out of memory.
    pub fn copy(&self, alloc: Global) -> Result<Part, AllocError>
        ensures seeds { IfOk result (λ part. part.seeds ≡ self.now.seeds) }
        ensures tried { IfOk result (λ part. (hunt : Hunt) → IsTried hunt self.now → IsTried hunt part) }
    {
        let list = match &self.list {
            Some(list) => Some(String::from_str(alloc, list.as_str())?),
            None => None,
        };
        Ok(Part {
            seeds: self.seeds,
            left_out: self.left_out,
            list,
        })
    }
}
