//! Why nothing is asked.

ghost use Rattle.std.specs.Prelude.{◌≡◌};
ghost use Rattle.ir_arguments.specs.declared.argument_err.ArgumentErr.TheVariants.{NoMem};

use std::alloc::{AllocError, AllocFailed};

/// Why nothing is asked.
#[derive(Drop)]
pub enum ArgumentErr {
    /// What is wrong with an argument.
    Wrong(String),
    /// Memory ran out.
    NoMem,
}

impl From<AllocError> for ArgumentErr {
    ghost from_gives = { λ _ e. e ≡ NoMem };

    fn from(_e: AllocError) -> ArgumentErr {
        ArgumentErr::NoMem
    }
}

impl<T: Drop> From<AllocFailed<T>> for ArgumentErr {
    ghost from_gives = { λ _ e. e ≡ NoMem };

    fn from(_e: AllocFailed<T>) -> ArgumentErr {
        ArgumentErr::NoMem
    }
}
