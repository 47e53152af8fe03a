//! Why no guest was made of an ELF file.

ghost use Rattle.std.specs.Prelude.{◌≡◌};
ghost use Rattle.ir_elf.specs.declared.elf_err.ElfErr.TheVariants.{Refused, NoMem};

use crate::refusal::Refusal;
use std::alloc::{AllocError, AllocFailed};
use thiserror::Error;

/// The first test that fails, or out of memory.
#[derive(Debug, Drop, Error)]
pub enum ElfErr {
    #[error("{0}")]
    Refused(Refusal),
    #[error("memory ran out")]
    NoMem,
}

impl From<Refusal> for ElfErr {
    ghost from_gives = { λ r e. e ≡ Refused r };

    fn from(refusal: Refusal) -> ElfErr {
        ElfErr::Refused(refusal)
    }
}

impl From<AllocError> for ElfErr {
    ghost from_gives = { λ _ e. e ≡ NoMem };

    fn from(_e: AllocError) -> ElfErr {
        ElfErr::NoMem
    }
}

impl<T: Drop> From<AllocFailed<T>> for ElfErr {
    ghost from_gives = { λ _ e. e ≡ NoMem };

    fn from(_e: AllocFailed<T>) -> ElfErr {
        ElfErr::NoMem
    }
}
