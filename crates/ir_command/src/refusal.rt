//! Why a line is refused.

/// A refusal of a command, which changes nothing. Each has a number, which its answer prints.
#[derive(Clone, Copy, Debug, PartialEq, Eq)]
pub enum Refusal {
    /// There is no command of this name.
    UnknownCommand,
    /// The number of arguments, the form of one, or its limit.
    BadArgument,
    /// There is no thread of this number.
    NoSuchThread,
    /// There is no object of this number.
    NoSuchObject,
    /// No point or no kept cut has this number.
    NoSuchNumber,
    /// An address that is misaligned, or bytes that don't all lie where they have to.
    BadAddress,
    /// The line has more than 1,024 bytes.
    LineTooLong,
    /// Out of memory.
    NoMemory,
    /// There are already as many points or kept cuts as there may be.
    Full,
}

impl Refusal {
    ghost use Rattle.ir_command.specs.Commands.{refusal_number};
    ghost use Rattle.std.specs.Prelude.{◌≡◌};

    /// The number of the refusal, from 1 to 9.
    pub fn number(self) -> u8
        ensures { result ≡ refusal_number self }
    {
        match self {
            Refusal::UnknownCommand => 1,
            Refusal::BadArgument => 2,
            Refusal::NoSuchThread => 3,
            Refusal::NoSuchObject => 4,
            Refusal::NoSuchNumber => 5,
            Refusal::BadAddress => 6,
            Refusal::LineTooLong => 7,
            Refusal::NoMemory => 8,
            Refusal::Full => 9,
        }
    }
}
