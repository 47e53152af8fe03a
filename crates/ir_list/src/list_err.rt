//! Why a guest was not listed.

ghost use Rattle.std.specs.Prelude.{◌≡◌};
ghost use Rattle.ir_list.specs.declared.list_err.ListErr.TheVariants.{NoMem, Device};

use ir_stream::DeviceErr;
use std::alloc::AllocError;
use thiserror::Error;

/// Why not all lines of a listing were written.
#[derive(Clone, Copy, Debug, PartialEq, Eq, Error)]
pub enum ListErr {
    /// Out of memory.
    #[error("out of memory")]
    NoMem,
    /// The device failed that takes the lines.
    #[error("a write failed")]
    Device,
}

impl From<AllocError> for ListErr {
    ghost from_gives = { λ _ e. e ≡ NoMem };

    fn from(_e: AllocError) -> ListErr {
        ListErr::NoMem
    }
}

impl From<DeviceErr> for ListErr {
    ghost from_gives = { λ _ e. e ≡ Device };

    fn from(_e: DeviceErr) -> ListErr {
        ListErr::Device
    }
}
