//! Numbers that are found by hashes. What a hash leads to is compared, and no number is lost where others have the same hash.

ghost use Rattle.std.specs.Prelude.{◌≡◌, [], OnOk};
ghost use Rattle.ir_state_store.specs.Hashes.{hash_place, hashed_number_at, IsFoundBy, KeepsFound};

use std::alloc::{AllocError, Global};
use std::collections::HashMap;
use std::marker::Model;

/// How many steps a number's place may be from that of its hash.
pub const MOST_STEPS: u64 = u64::MAX;

/// Numbers at places: each at that of its hash, or at the next that was free.
#[derive(Drop)]
pub struct Index {
    places: HashMap<u64, usize>,
}

impl Model for Index {
    ghost use Rattle.std.specs.Prelude.{ℕ, List};

    ghost Value = { List (ℕ × ℕ) };

    ghost view = { λ x. x.places.entries };
}

impl Index {
    /// No numbers.
    pub fn new(alloc: Global) -> Index
        ensures { result ≡ [] }
    {
        Index {
            places: HashMap::new(alloc),
        }
    }

    /// The number at the place so many steps after that of a hash.
    pub fn at(&self, hash: u64, steps: u64) -> Option<usize>
        ensures { result ≡ hashed_number_at self.now (hash_place hash steps) }
    {
        match self.places.get(&hash.wrapping_add(steps)) {
            Some(number) => Some(*number),
            None => None,
        }
    }

    /// Notes a number with this hash.
    ///
    /// # Errors
    /// Out of memory.
    pub fn note(&mut self, hash: u64, number: usize) -> Result<(), AllocError>
        ensures found { OnOk result (IsFoundBy self.new hash number) }
        ensures keeps { KeepsFound self.old self.new }
    {
        for steps in 0..MOST_STEPS {
            if self.at(hash, steps).is_none() {
                self.places.insert(hash.wrapping_add(steps), number)?;
                return Ok(());
            }
        }
        Err(AllocError)
    }
}
