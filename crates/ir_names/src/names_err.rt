//! Why names were not read.

ghost use Rattle.std.specs.Prelude.{◌≡◌};
ghost use Rattle.ir_names.specs.declared.names_err.NamesErr.TheVariants.{NoMem};

use std::alloc::{AllocError, AllocFailed};
use thiserror::Error;

/// Why names were not read.
#[derive(Clone, Copy, Debug, PartialEq, Eq, Error)]
pub enum NamesErr {
    /// The first line that a file of names can't have, counted from 1.
    #[error("line {0} is no line of names")]
    Line(usize),
    /// Out of memory.
    #[error("out of memory")]
    NoMem,
}

impl From<AllocError> for NamesErr {
    ghost from_gives = { λ _ e. e ≡ NoMem };

    fn from(_e: AllocError) -> NamesErr {
        NamesErr::NoMem
    }
}

impl<T: Drop> From<AllocFailed<T>> for NamesErr {
    ghost from_gives = { λ _ e. e ≡ NoMem };

    fn from(_e: AllocFailed<T>) -> NamesErr {
        NamesErr::NoMem
    }
}
