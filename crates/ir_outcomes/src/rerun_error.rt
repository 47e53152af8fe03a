//! Why a guest doesn't go by a path once more.

ghost use Rattle.std.specs.Prelude.{◌≡◌};
ghost use Rattle.ir_outcomes.specs.declared.rerun_error.RerunError.TheVariants.{NoMemory};

use ir_search::Stop;
use std::alloc::{AllocError, AllocFailed};

/// Why a guest doesn't go by a path once more.
#[derive(Clone, Copy, Debug, PartialEq, Eq)]
pub enum RerunError {
    /// Out of memory.
    NoMemory,
    /// A thread doesn't go on by the path's next way.
    NoWay,
    /// A thread is not followed to its next entry or try.
    Stopped(Stop),
}

impl From<AllocError> for RerunError {
    ghost from_gives = { λ _ e. e ≡ NoMemory };

    fn from(_e: AllocError) -> RerunError {
        RerunError::NoMemory
    }
}

impl<T: Drop> From<AllocFailed<T>> for RerunError {
    ghost from_gives = { λ _ e. e ≡ NoMemory };

    fn from(_e: AllocFailed<T>) -> RerunError {
        RerunError::NoMemory
    }
}
