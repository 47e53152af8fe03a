//! Why a run isn't shrunk.

ghost use Rattle.std.specs.Prelude.{◌≡◌};

use ir_files::ExitStatus;
use ir_record_command::RecordFault;
use std::alloc::AllocError;

/// Why a run isn't shrunk.
#[derive(Debug, Drop)]
pub enum Refusal {
    /// The guest isn't recorded: a fault of the image, or memory ran out.
    Fault(RecordFault),
    /// The run by an order that the trace allows has another trace.
    Other,
    /// The run doesn't fulfil the condition of this number, from 0.
    Unmet(usize),
    /// The run hasn't what is wanted of its stale writes.
    Stale,
}

impl Refusal {
    ghost use Rattle.ir_shrink.specs.Stopping.{shrink_status};

    /// The exit status.
    pub fn status(&self) -> ExitStatus
        ensures { result ≡ shrink_status self.now }
    {
        match self {
            Refusal::Fault(why) => why.status(),
            Refusal::Other => ExitStatus::NotFit,
            Refusal::Unmet(_) | Refusal::Stale => ExitStatus::NotSo,
        }
    }
}

impl From<AllocError> for Refusal {
    ghost use Rattle.ir_record_command.specs.declared.record_fault.RecordFault.TheVariants.{NoMem};
    ghost use Rattle.ir_shrink.specs.declared.refusal.Refusal.TheVariants.{Fault};

    ghost from_gives = { λ _ e. e ≡ Fault NoMem };

    fn from(_e: AllocError) -> Refusal {
        Refusal::Fault(RecordFault::NoMem)
    }
}

impl From<RecordFault> for Refusal {
    ghost use Rattle.ir_shrink.specs.declared.refusal.Refusal.TheVariants.{Fault};

    ghost from_gives = { λ why e. e ≡ Fault why };

    fn from(why: RecordFault) -> Refusal {
        Refusal::Fault(why)
    }
}
