//! How a thread ends.

use ir_mach::Fault;

/// How a thread ended. Each end has a number, which traces hold and `ir` prints.
#[derive(Clone, Copy, Debug, PartialEq, Eq)]
pub enum End {
    /// The call END, with its code.
    Exit(u32),
    /// EBREAK.
    Breakpoint,
    /// The word at pc is no instruction.
    IllegalWord,
    /// A jump or a taken branch to an address that is no multiple of 4.
    TargetMisaligned,
    /// The pc is outside the code.
    OutsideCode,
    /// A load that is misaligned, or not wholly inside code or private memory.
    BadLoad,
    /// A store that is misaligned, or not wholly inside private memory.
    BadStore,
    /// A system call that there isn't.
    UnknownCall,
    /// No such object, or no such word of an object.
    NoSuchObject,
    /// An entry to an object whose number is not above all that the thread holds.
    EntryOutOfOrder,
    /// An object that the thread doesn't hold, or not for writing.
    NotHeld,
    /// The output would pass its limit.
    OutputFull,
    /// The thread has taken as many steps as its budget.
    BudgetSpent,
    /// The thread has logged as many events as it may.
    LogFull,
}

impl End {
    ghost use Rattle.ir_thread.specs.State.{end_number, end_code, end_of};
    ghost use Rattle.std.specs.Prelude.{◌≡◌};

    /// The number of the end, from 1 to 14.
    pub fn number(self) -> u8
        ensures { result ≡ end_number self }
    {
        match self {
            End::Exit(_) => 1,
            End::Breakpoint => 2,
            End::IllegalWord => 3,
            End::TargetMisaligned => 4,
            End::OutsideCode => 5,
            End::BadLoad => 6,
            End::BadStore => 7,
            End::UnknownCall => 8,
            End::NoSuchObject => 9,
            End::EntryOutOfOrder => 10,
            End::NotHeld => 11,
            End::OutputFull => 12,
            End::BudgetSpent => 13,
            End::LogFull => 14,
        }
    }

    /// The code that the call END gave, and 0 at every other end.
    pub fn code(self) -> u32
        ensures { result ≡ end_code self }
    {
        match self {
            End::Exit(code) => code,
            _ => 0,
        }
    }

    /// The end of this number and code; None if the number is none of 1 to 14, or if another code than 0 goes with another end than 1.
    pub fn from_parts(number: u8, code: u32) -> Option<End>
        ensures { result ≡ end_of number code }
    {
        if number != 1 && code != 0 {
            return None;
        }
        match number {
            1 => Some(End::Exit(code)),
            2 => Some(End::Breakpoint),
            3 => Some(End::IllegalWord),
            4 => Some(End::TargetMisaligned),
            5 => Some(End::OutsideCode),
            6 => Some(End::BadLoad),
            7 => Some(End::BadStore),
            8 => Some(End::UnknownCall),
            9 => Some(End::NoSuchObject),
            10 => Some(End::EntryOutOfOrder),
            11 => Some(End::NotHeld),
            12 => Some(End::OutputFull),
            13 => Some(End::BudgetSpent),
            14 => Some(End::LogFull),
            _ => None,
        }
    }
}

impl From<Fault> for End {
    ghost use Rattle.ir_thread.specs.State.{end_of_fault};
    ghost use Rattle.std.specs.Prelude.{◌≡◌};

    ghost from_gives = { λ fault end. end ≡ end_of_fault fault };

    fn from(fault: Fault) -> End {
        match fault {
            Fault::Breakpoint => End::Breakpoint,
            Fault::IllegalWord => End::IllegalWord,
            Fault::TargetMisaligned => End::TargetMisaligned,
            Fault::OutsideCode => End::OutsideCode,
            Fault::BadLoad => End::BadLoad,
            Fault::BadStore => End::BadStore,
        }
    }
}
