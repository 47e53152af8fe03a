//! Why an image could not be read.

ghost use Rattle.std.specs.Prelude.{◌≡◌};
ghost use Rattle.ir_image.specs.declared.image_err.ImageErr.TheVariants.{NoMem};
ghost use Rattle.ir_image.specs.Guest.{image_fault_number};

use std::alloc::{AllocError, AllocFailed};
use thiserror::Error;

/// The first fault from the left, or out of memory.
///
/// Fields are read from the left, each whole and then tested.
#[derive(Debug, Drop, Error)]
pub enum ImageErr {
    #[error("a field passes the end")]
    Short,
    #[error("these bytes are no image")]
    Magic,
    #[error("a count is over its limit, or there is no thread")]
    Count,
    #[error("an entry is no place in the code")]
    Entry,
    #[error("bytes stand after the end")]
    Trailing,
    #[error("memory ran out")]
    NoMem,
}

impl ImageErr {
    /// The number of the fault, 1 to 5 in the order above, or `None` for out of memory.
    pub fn number(&self) -> Option<u8>
        ensures { result ≡ image_fault_number self.now }
    {
        match self {
            ImageErr::Short => Some(1),
            ImageErr::Magic => Some(2),
            ImageErr::Count => Some(3),
            ImageErr::Entry => Some(4),
            ImageErr::Trailing => Some(5),
            ImageErr::NoMem => None,
        }
    }
}

impl From<AllocError> for ImageErr {
    ghost from_gives = { λ _ e. e ≡ NoMem };

    fn from(_e: AllocError) -> ImageErr {
        ImageErr::NoMem
    }
}

impl<T: Drop> From<AllocFailed<T>> for ImageErr {
    ghost from_gives = { λ _ e. e ≡ NoMem };

    fn from(_e: AllocFailed<T>) -> ImageErr {
        ImageErr::NoMem
    }
}
