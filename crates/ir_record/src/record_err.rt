//! Why there is no recording.

ghost use Rattle.std.specs.Prelude.{◌≡◌};

use std::alloc::AllocError;

/// Why there is no recording.
#[derive(Debug, Drop)]
pub enum RecordErr<W> {
    /// Out of memory. The worlds are dropped.
    NoMem,
    /// A world failed, and the recording ended there.
    World {
        /// The lowest thread whose world has failed.
        thread: u8,
        /// All worlds, in the order of their threads.
        worlds: Vec<W>,
    },
}

impl<W> From<AllocError> for RecordErr<W> {
    ghost use Rattle.ir_record.specs.declared.record_err.RecordErr.TheVariants.{NoMem};

    ghost from_gives = { λ _ e. e ≡ NoMem };

    fn from(_e: AllocError) -> RecordErr<W> {
        RecordErr::NoMem
    }
}
