//! Where a thread's events and leaves are among its steps.

ghost use Rattle.std.specs.Prelude.{◌≡◌};
ghost use Rattle.ir_fit.specs.Placed.{Placed};

use crate::leave::Leave;
use std::marker::Model;

/// The positions of a thread's events, and its leaves.
#[derive(Drop)]
pub struct Places {
    entries: Vec<u64>,
    leaves: Vec<Leave>,
}

impl Model for Places {
    ghost Value = { Placed };

    ghost view = { λ p. record { entries = p.entries.items; leaves = p.leaves.items } };
}

impl Places {
    pub fn new(entries: Vec<u64>, leaves: Vec<Leave>) -> Places
        ensures { result ≡ record { entries = entries.items; leaves = leaves.items } }
    {
        Places { entries, leaves }
    }

    // For each event of the thread, in order, how many steps it took before.
    pub fn entries(&self) -> &[u64]
        ensures { result.now ≡ self.now.entries }
    {
        self.entries.as_slice()
    }

    // The leaves of the thread, in order.
    pub fn leaves(&self) -> &[Leave]
        ensures { result.now ≡ self.now.leaves }
    {
        self.leaves.as_slice()
    }
}
