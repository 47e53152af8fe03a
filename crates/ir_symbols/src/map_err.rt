//! Why a map was not read.

ghost use Rattle.std.specs.Prelude.{◌≡◌};
ghost use Rattle.ir_symbols.specs.declared.map_err.MapErr.TheVariants.{NoMem};

use std::alloc::{AllocError, AllocFailed};
use thiserror::Error;

/// Why a map was not read.
#[derive(Clone, Copy, Debug, PartialEq, Eq, Error)]
pub enum MapErr {
    /// The first line that a map can't have, counted from 1.
    #[error("line {0} is no line of a map")]
    Line(usize),
    /// Out of memory.
    #[error("out of memory")]
    NoMem,
}

impl From<AllocError> for MapErr {
    ghost from_gives = { λ _ e. e ≡ NoMem };

    fn from(_e: AllocError) -> MapErr {
        MapErr::NoMem
    }
}

impl<T: Drop> From<AllocFailed<T>> for MapErr {
    ghost from_gives = { λ _ e. e ≡ NoMem };

    fn from(_e: AllocFailed<T>) -> MapErr {
        MapErr::NoMem
    }
}
