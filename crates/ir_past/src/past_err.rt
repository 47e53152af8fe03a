//! Why an answer was not written.

ghost use Rattle.std.specs.Prelude.{◌≡◌};
ghost use Rattle.ir_past.specs.declared.past_err.PastErr.TheVariants.{NoMem, Write};

use ir_stream::DeviceErr;
use std::alloc::{AllocError, AllocFailed};

/// Why not all lines of an answer were written.
#[derive(Clone, Copy, Debug, PartialEq, Eq)]
pub enum PastErr {
    /// Out of memory.
    NoMem,
    /// The writer failed.
    Write,
}

impl PastErr {
    ghost use Rattle.ir_past.specs.Answers.{fault_words};

    /// The fault in words.
    pub fn words(self) -> &'static str
        ensures { result.now ≡ fault_words self }
    {
        match self {
            PastErr::NoMem => "memory ran out",
            PastErr::Write => "standard output can't be written",
        }
    }
}

impl From<AllocError> for PastErr {
    ghost from_gives = { λ _ e. e ≡ NoMem };

    fn from(_e: AllocError) -> PastErr {
        PastErr::NoMem
    }
}

impl<T: Drop> From<AllocFailed<T>> for PastErr {
    ghost from_gives = { λ _ e. e ≡ NoMem };

    fn from(_e: AllocFailed<T>) -> PastErr {
        PastErr::NoMem
    }
}

impl From<DeviceErr> for PastErr {
    ghost from_gives = { λ _ e. e ≡ Write };

    fn from(_e: DeviceErr) -> PastErr {
        PastErr::Write
    }
}
