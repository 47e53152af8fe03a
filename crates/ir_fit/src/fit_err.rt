//! Why a trace was not fitted.

ghost use Rattle.std.specs.Prelude.{◌≡◌};
ghost use Rattle.ir_fit.specs.declared.fit_err.FitErr.TheVariants.{NoMem};

use crate::verdict::Verdict;
use std::alloc::{AllocError, AllocFailed};

/// Why a trace was not fitted.
#[derive(Debug, Drop)]
pub enum FitErr {
    /// Memory ran out.
    NoMem,
    /// No run of the guest has this trace.
    Refused(Verdict),
}

impl From<AllocError> for FitErr {
    ghost from_gives = { λ _ e. e ≡ NoMem };

    fn from(_e: AllocError) -> FitErr {
        FitErr::NoMem
    }
}

impl<T: Drop> From<AllocFailed<T>> for FitErr {
    ghost from_gives = { λ _ e. e ≡ NoMem };

    fn from(_e: AllocFailed<T>) -> FitErr {
        FitErr::NoMem
    }
}
