//! What is known in the end.

ghost use Rattle.std.specs.Prelude.{◌≡◌, IfOk};
ghost use Rattle.std.specs.String.{string_bytes};
ghost use Rattle.ir_within.specs.Within.{verdict_of, verdict_line, verdict_status};

use ir_files::ExitStatus;
use ir_search::Ended;
use std::alloc::{AllocError, Global};

/// What is known of the outcomes of a guest, beside those of another.
#[derive(Clone, Copy, Debug, PartialEq, Eq)]
pub enum Verdict {
    /// Each is one of the other guest's.
    Within,
    /// So many aren't.
    Outside(usize),
    /// Neither is known.
    Unknown,
}

impl Verdict {
    /// What is known where so many outcomes are outside, of those that a search found which ended so.
    pub fn of(ended: Ended, outside: usize) -> Verdict
        ensures { result ≡ verdict_of ended outside }
    {
        if outside > 0 {
            return Verdict::Outside(outside);
        }
        match ended {
            Ended::Finished => Verdict::Within,
            Ended::Covered | Ended::Stopped(_) => Verdict::Unknown,
        }
    }

    /// The exit status.
    pub fn status(self) -> ExitStatus
        ensures { result ≡ verdict_status self }
    {
        match self {
            Verdict::Within => ExitStatus::Done,
            Verdict::Outside(_) => ExitStatus::NotSo,
            Verdict::Unknown => ExitStatus::GaveUp,
        }
    }

    /// The line that says it.
    ///
    /// # Errors
    /// Out of memory.
    pub fn line(self, alloc: Global) -> Result<String, AllocError>
        ensures { IfOk result (λ s. string_bytes s ≡ verdict_line self) }
    {
        match self {
            Verdict::Within => String::from_str(alloc, "within\n"),
            Verdict::Outside(many) => format!(in alloc; "outside {many}\n"),
            Verdict::Unknown => String::from_str(alloc, "unknown\n"),
        }
    }
}
