//! Why nothing was printed of a guest.

ghost use Rattle.std.specs.Prelude.{◌≡◌};
ghost use Rattle.ir_explore.specs.Faults.{explore_image_fault, explore_fault_status, explore_fault_words};
ghost use Rattle.ir_explore.specs.declared.fault.ExploreFault.TheVariants.{NoMem, Write};

use ir_files::ExitStatus;
use ir_image::ImageErr;
use ir_record_command::RecordFault;
use ir_stream::DeviceErr;
use std::alloc::{AllocError, AllocFailed};

/// Why nothing was printed of a guest, or not all.
#[derive(Debug, Drop)]
pub enum ExploreFault {
    /// The image is refused.
    Image(ImageErr),
    /// The guest has more threads or objects than the profile allows.
    TooLarge,
    /// Out of memory.
    NoMem,
    /// The writer failed.
    Write,
}

impl ExploreFault {
    /// The fault that a refusal of the image is.
    pub fn of_image(why: ImageErr) -> ExploreFault
        ensures { result ≡ explore_image_fault why }
    {
        match why {
            ImageErr::NoMem => ExploreFault::NoMem,
            other => ExploreFault::Image(other),
        }
    }

    /// The exit status.
    pub fn status(&self) -> ExitStatus
        ensures { result ≡ explore_fault_status self.now }
    {
        match self {
            ExploreFault::Image(_) | ExploreFault::TooLarge => ExitStatus::Refused,
            ExploreFault::NoMem | ExploreFault::Write => ExitStatus::Failed,
        }
    }

    /// The fault in words.
    pub fn words(&self) -> &'static str
        ensures { result.now ≡ explore_fault_words self.now }
    {
        match self {
            ExploreFault::Image(why) => RecordFault::of_image(why).words(),
            ExploreFault::TooLarge => RecordFault::TooLarge.words(),
            ExploreFault::NoMem => "memory ran out",
            ExploreFault::Write => "standard output can't be written",
        }
    }
}

impl From<AllocError> for ExploreFault {
    ghost from_gives = { λ _ e. e ≡ NoMem };

    fn from(_e: AllocError) -> ExploreFault {
        ExploreFault::NoMem
    }
}

impl<T: Drop> From<AllocFailed<T>> for ExploreFault {
    ghost from_gives = { λ _ e. e ≡ NoMem };

    fn from(_e: AllocFailed<T>) -> ExploreFault {
        ExploreFault::NoMem
    }
}

impl From<DeviceErr> for ExploreFault {
    ghost from_gives = { λ _ e. e ≡ Write };

    fn from(_e: DeviceErr) -> ExploreFault {
        ExploreFault::Write
    }
}
