//! How a run of the program ended.

ghost use Rattle.std.specs.Prelude.{◌≡◌};

/// The exit status of the program.
#[derive(Clone, Copy, Debug, PartialEq, Eq)]
pub enum ExitStatus {
    /// All was done.
    Done,
    /// Memory, a file, a stream or the clock failed.
    Failed,
    /// The arguments ask for nothing that there is.
    BadArguments,
    /// A source, an ELF file, a map, a list, an image or a trace is refused, or a guest needs the second profile.
    Refused,
    /// A trace doesn't fit its image, contradicts itself or another trace, or has too many boxes for a page.
    NotFit,
    /// What was asked for isn't so: a thread of a recording didn't end by END with code 0, or of what was looked for there is none.
    NotSo,
    /// A search gave up before it was known whether there is what it looked for.
    GaveUp,
    /// A search found a hang.
    Hangs,
}

impl ExitStatus {
    ghost use Rattle.ir_files.specs.Statuses.{status_number};

    /// The number that the system is given, 0 to 7 in the order above.
    pub fn number(self) -> u8
        ensures { result ≡ status_number self }
    {
        match self {
            ExitStatus::Done => 0,
            ExitStatus::Failed => 1,
            ExitStatus::BadArguments => 2,
            ExitStatus::Refused => 3,
            ExitStatus::NotFit => 4,
            ExitStatus::NotSo => 5,
            ExitStatus::GaveUp => 6,
            ExitStatus::Hangs => 7,
        }
    }
}
