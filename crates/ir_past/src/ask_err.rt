//! Why a question wasn't answered.

ghost use Rattle.std.specs.Prelude.{◌≡◌};
ghost use Rattle.ir_past.specs.declared.ask_err.AskErr.TheVariants as ask;
ghost use Rattle.ir_past.specs.declared.past_err.PastErr.TheVariants.{NoMem, Write};

use crate::absent::Absent;
use crate::past_err::PastErr;
use ir_files::ExitStatus;
use ir_stream::DeviceErr;
use std::alloc::AllocError;

/// Why a question wasn't answered.
#[derive(Clone, Copy, Debug, PartialEq, Eq)]
pub enum AskErr {
    /// There is none of what it is about.
    Absent(Absent),
    /// The answer wasn't written whole.
    Unwritten(PastErr),
}

/// How an answer was printed: its exit status, or why there is none.
pub type Printed = Result<ExitStatus, AskErr>;

impl AskErr {
    ghost use Rattle.ir_past.specs.Replies.{ask_status, ask_words};

    /// The exit status that it gives.
    pub fn status(self) -> ExitStatus
        ensures { result ≡ ask_status self }
    {
        match self {
            AskErr::Absent(_) => ExitStatus::BadArguments,
            AskErr::Unwritten(_) => ExitStatus::Failed,
        }
    }

    /// The fault in words.
    pub fn words(self) -> &'static str
        ensures { result.now ≡ ask_words self }
    {
        match self {
            AskErr::Absent(what) => what.words(),
            AskErr::Unwritten(why) => why.words(),
        }
    }
}

impl From<Absent> for AskErr {
    ghost from_gives = { λ x e. e ≡ ask.Absent x };

    fn from(what: Absent) -> AskErr {
        AskErr::Absent(what)
    }
}

impl From<PastErr> for AskErr {
    ghost from_gives = { λ x e. e ≡ ask.Unwritten x };

    fn from(why: PastErr) -> AskErr {
        AskErr::Unwritten(why)
    }
}

impl From<AllocError> for AskErr {
    ghost from_gives = { λ _ e. e ≡ ask.Unwritten NoMem };

    fn from(_e: AllocError) -> AskErr {
        AskErr::Unwritten(PastErr::NoMem)
    }
}

impl From<DeviceErr> for AskErr {
    ghost from_gives = { λ _ e. e ≡ ask.Unwritten Write };

    fn from(_e: DeviceErr) -> AskErr {
        AskErr::Unwritten(PastErr::Write)
    }
}
