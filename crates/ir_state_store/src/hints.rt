//! Where what has a hash may be found. A hint may be wrong, so what it names is compared.

ghost use Rattle.std.specs.Prelude.{◌<◌, IfSome};

use std::alloc::{AllocError, Global};
use std::collections::HashMap;

/// The last number with each hash.
#[derive(Drop)]
pub struct Hints {
    numbers: HashMap<u64, usize>,
}

impl Hints {
    /// No hints.
    pub fn new(alloc: Global) -> Hints {
        Hints {
            numbers: HashMap::new(alloc),
        }
    }

    /// A number with this hash, of so many.
    pub fn number(&self, hash: u64, count: usize) -> Option<usize>
        ensures { IfSome result (λ n. n < count) }
    {
        match self.numbers.get(&hash) {
            Some(n) if *n < count => Some(*n),
            _ => None,
        }
    }

    /// Notes the number with this hash.
    ///
    /// # Errors
    /// Out of memory.
    pub fn note(&mut self, hash: u64, n: usize) -> Result<(), AllocError> {
        self.numbers.insert(hash, n)?;
        Ok(())
    }
}
