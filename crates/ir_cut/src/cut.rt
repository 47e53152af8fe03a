//! A position for each thread.

ghost use Rattle.std.specs.Prelude.{◌≡◌, ◌<◌, ℕ, List, length, IfOk};
ghost use Rattle.ir_cut.specs.Positions.{cut_of};

use std::alloc::AllocError;
use std::marker::Model;

/// How many steps each thread has taken, by the numbers of the threads.
#[derive(Drop)]
pub struct Cut {
    positions: Vec<u64>,
}

impl Model for Cut {
    ghost Value = { List ℕ };

    ghost view = { λ c. c.positions.items };
}

impl Cut {
    /// The cut with these positions.
    pub fn new(positions: Vec<u64>) -> Cut
        ensures { result ≡ positions.items }
    {
        Cut { positions }
    }

    /// The positions, by the numbers of the threads.
    pub fn positions(&self) -> &[u64]
        ensures { result.now ≡ self.now }
    {
        self.positions.as_slice()
    }

    /// How many steps thread t has taken.
    pub fn position(&self, t: usize) -> u64
        requires { t < length self.now }
        ensures { result ≡ cut_of self.now t }
    {
        self.positions[t]
    }

    /// An equal cut with memory of its own.
    ///
    /// # Errors
    /// Out of memory.
    pub fn copy(&self) -> Result<Cut, AllocError>
        ensures { IfOk result (λ c. c ≡ self.now) }
    {
        let positions = Vec::from_slice(*self.positions.allocator(), self.positions.as_slice())?;
        Ok(Cut { positions })
    }
}
