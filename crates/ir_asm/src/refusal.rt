//! Why a line was not taken.

ghost use Rattle.std.specs.Prelude.{◌≡◌};
ghost use Rattle.ir_asm.specs.declared.refusal.Refusal.TheVariants.{Faulty, NoMem};

use crate::cause::Cause;
use std::alloc::{AllocError, AllocFailed};

/// The fault of a line, or out of memory.
#[derive(Debug, Drop)]
pub enum Refusal {
    Faulty(Cause),
    NoMem,
}

impl From<Cause> for Refusal {
    ghost from_gives = { λ cause e. e ≡ Faulty cause };

    fn from(cause: Cause) -> Refusal {
        Refusal::Faulty(cause)
    }
}

impl From<AllocError> for Refusal {
    ghost from_gives = { λ _ e. e ≡ NoMem };

    fn from(_e: AllocError) -> Refusal {
        Refusal::NoMem
    }
}

impl<T: Drop> From<AllocFailed<T>> for Refusal {
    ghost from_gives = { λ _ e. e ≡ NoMem };

    fn from(_e: AllocFailed<T>) -> Refusal {
        Refusal::NoMem
    }
}
