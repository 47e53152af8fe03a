//! Why a source could not be assembled.

ghost use Rattle.std.specs.Prelude.{◌≡◌};
ghost use Rattle.ir_asm.specs.Answered.{refused};
ghost use Rattle.ir_asm.specs.declared.asm_err.AsmErr.TheVariants.{NoMem};

use crate::cause::Cause;
use crate::refusal::Refusal;
use std::alloc::AllocError;
use thiserror::Error;

/// The first fault of a source, or out of memory.
#[derive(Debug, Drop, Error)]
pub enum AsmErr {
    /// The line of the first fault, counted from 1, and what is wrong there.
    #[error("line {line}: {cause:?}")]
    At { line: usize, cause: Cause },
    #[error("memory ran out")]
    NoMem,
}

impl From<AllocError> for AsmErr {
    ghost from_gives = { λ _ e. e ≡ NoMem };

    fn from(_e: AllocError) -> AsmErr {
        AsmErr::NoMem
    }
}

/// What was refused in a line.
pub fn at_line(line: usize, refusal: Refusal) -> AsmErr
    ensures { result ≡ refused line refusal }
{
    match refusal {
        Refusal::Faulty(cause) => AsmErr::At { line, cause },
        Refusal::NoMem => AsmErr::NoMem,
    }
}
