//! Why there is no answer.

ghost use Rattle.std.specs.Prelude.{◌≡◌};
ghost use Rattle.ir_explore.specs.declared.fault.ExploreFault.TheVariants.{NoMem, Write};
ghost use Rattle.ir_within.specs.Faults.{within_fault_status};
ghost use Rattle.ir_within.specs.declared.fault.WithinFault.TheVariants.{Unwritten};

use ir_explore::ExploreFault;
use ir_files::ExitStatus;
use ir_stream::DeviceErr;
use std::alloc::AllocError;

/// Why there is no answer, or not all of it.
#[derive(Debug, Drop)]
pub enum WithinFault {
    /// The image isn't explored.
    Image(ExploreFault),
    /// The other image isn't.
    Other(ExploreFault),
    /// The answer wasn't written.
    Unwritten(ExploreFault),
}

impl WithinFault {
    /// The exit status.
    pub fn status(&self) -> ExitStatus
        ensures { result ≡ within_fault_status self.now }
    {
        match self {
            WithinFault::Image(why) | WithinFault::Other(why) | WithinFault::Unwritten(why) => {
                why.status()
            }
        }
    }
}

impl From<AllocError> for WithinFault {
    ghost from_gives = { λ _ e. e ≡ Unwritten NoMem };

    fn from(_e: AllocError) -> WithinFault {
        WithinFault::Unwritten(ExploreFault::NoMem)
    }
}

impl From<DeviceErr> for WithinFault {
    ghost from_gives = { λ _ e. e ≡ Unwritten Write };

    fn from(_e: DeviceErr) -> WithinFault {
        WithinFault::Unwritten(ExploreFault::Write)
    }
}
