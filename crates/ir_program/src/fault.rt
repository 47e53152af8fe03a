//! What stops a session or a listing.

ghost use Rattle.std.specs.Prelude.{◌≡◌};
ghost use Rattle.ir_program.specs.declared.fault.ProgramErr.TheVariants.{NoMem};

use ir_debug::SessionErr;
use std::alloc::{AllocError, AllocFailed};

/// Why the program stops: a session, one of gdb's, or a trace that is printed, and without a subcommand the lines before the session.
#[derive(Clone, Copy, Debug, PartialEq, Eq)]
pub enum ProgramErr {
    /// A line of the image or the trace isn't whole bytes in at most 4,194,304 hexadecimal digits.
    BadLine,
    /// Out of memory.
    NoMem,
    /// The reader failed.
    Read,
    /// The writer failed.
    Write,
    /// Nothing ended the session within the limit of what it reads.
    TooLong,
}

impl ProgramErr {
    ghost use Rattle.ir_program.specs.Bundle.{program_fault_words};

    /// The fault in words.
    pub fn words(self) -> &'static str
        ensures { result.now ≡ program_fault_words self }
    {
        match self {
            ProgramErr::BadLine => {
                "a line of the image or the trace isn't whole bytes in at most 4194304 hexadecimal digits"
            }
            ProgramErr::NoMem => "memory ran out",
            ProgramErr::Read => "standard input can't be read",
            ProgramErr::Write => "standard output can't be written",
            ProgramErr::TooLong => "1073741824 bytes were read, and nothing ended the session",
        }
    }
}

impl From<SessionErr> for ProgramErr {
    ghost use Rattle.ir_program.specs.Leaving.{session_fault};

    ghost from_gives = { λ e f. f ≡ session_fault e };

    fn from(e: SessionErr) -> ProgramErr {
        match e {
            SessionErr::NoMem => ProgramErr::NoMem,
            SessionErr::Read => ProgramErr::Read,
            SessionErr::Write => ProgramErr::Write,
            SessionErr::TooLong => ProgramErr::TooLong,
        }
    }
}

impl From<AllocError> for ProgramErr {
    ghost from_gives = { λ _ e. e ≡ NoMem };

    fn from(_e: AllocError) -> ProgramErr {
        ProgramErr::NoMem
    }
}

impl<T: Drop> From<AllocFailed<T>> for ProgramErr {
    ghost from_gives = { λ _ e. e ≡ NoMem };

    fn from(_e: AllocFailed<T>) -> ProgramErr {
        ProgramErr::NoMem
    }
}
