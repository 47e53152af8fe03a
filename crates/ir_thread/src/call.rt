//! The system calls.

ghost use Rattle.ir_thread.specs.State.{call_of};
ghost use Rattle.std.specs.Prelude.{◌≡◌};

use crate::profile::Profile;
use ir_runs::{Access, EnvKind};

/// A system call, by its number in a7. Its arguments are in a0, a1 and a2, its answer in a0.
#[derive(Clone, Copy, Debug, PartialEq, Eq)]
pub enum Call {
    /// 1: the thread ends with the code in a0.
    End,
    /// 2: prints the low byte of a0.
    PutByte,
    /// 3: prints a0 as a signed decimal number and a line feed.
    PutNumber,
    /// 4 to 6: answers what the environment gives.
    Env(EnvKind),
    /// 7 and 8: enters object a0.
    Enter(Access),
    /// 9: leaves object a0.
    Leave,
    /// 10: answers word a1 of object a0.
    Get,
    /// 11: writes a2 to word a1 of object a0.
    Put,
    /// 12: answers the thread's number.
    OwnNumber,
    /// 13, in the second profile: enters object a0 for writing if no thread is inside, and answers 1; else answers 0.
    TryWrite,
}

impl Call {
    /// The call of this number, if the profile has one.
    pub fn of_number(profile: Profile, number: u32) -> Option<Call>
        ensures { result ≡ call_of profile number }
    {
        match number {
            1 => Some(Call::End),
            2 => Some(Call::PutByte),
            3 => Some(Call::PutNumber),
            4 => Some(Call::Env(EnvKind::Clock)),
            5 => Some(Call::Env(EnvKind::Random)),
            6 => Some(Call::Env(EnvKind::Input)),
            7 => Some(Call::Enter(Access::Reading)),
            8 => Some(Call::Enter(Access::Writing)),
            9 => Some(Call::Leave),
            10 => Some(Call::Get),
            11 => Some(Call::Put),
            12 => Some(Call::OwnNumber),
            13 if profile == Profile::Two => Some(Call::TryWrite),
            _ => None,
        }
    }
}
