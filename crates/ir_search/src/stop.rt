//! Why a search stops before it is finished.

ghost use Rattle.std.specs.Prelude.{◌≡◌};
ghost use Rattle.ir_search.specs.declared.stop.Stop.TheVariants.{Memory};

use std::alloc::{AllocError, AllocFailed};

/// Why a search stops before it is finished.
#[derive(Clone, Copy, Debug, PartialEq, Eq)]
pub enum Stop {
    /// There are as many nodes as there may be.
    Nodes,
    /// This thread took as many steps without an entry or a try as it may.
    Private(usize),
    /// This thread's log is full, or its budget spent.
    Log(usize),
    /// This thread calls for the time once more than can be counted.
    World(usize),
    /// Out of memory.
    Memory,
    /// The seconds that it may take are over.
    Time,
    /// There are as many different outcomes as were asked for, and one more.
    Outcomes,
}

impl From<AllocError> for Stop {
    ghost from_gives = { λ _ e. e ≡ Memory };

    fn from(_e: AllocError) -> Stop {
        Stop::Memory
    }
}

impl<T: Drop> From<AllocFailed<T>> for Stop {
    ghost from_gives = { λ _ e. e ≡ Memory };

    fn from(_e: AllocFailed<T>) -> Stop {
        Stop::Memory
    }
}
