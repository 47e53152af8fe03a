//! The parts of a guest, and where each begins.

ghost use Rattle.std.specs.Prelude.{◌≡◌, ◌≤◌};
ghost use Rattle.ir_elf.specs.Layout.{layout_start, size_of};

use ir_image::{CODE_START, MEMORY_SIZE, MEMORY_START, MOST_CODE_WORDS};

/// What a segment is a part of.
#[derive(Clone, Copy, Debug, PartialEq, Eq)]
pub enum Part {
    /// The code and constants.
    Code,
    /// Each thread's private memory.
    Memory,
    /// What says which threads and objects there are; it is no memory of the guest.
    Table,
}

/// The address of the first byte of the table.
pub const TABLE_START: u32 = 0x0020_0000;

/// The most bytes of the table: its form, a number of threads, sixteen entries, and 64 objects of sixteen words.
pub const TABLE_SIZE: u32 = 4168;

impl Part {
    /// The address of its first byte.
    pub fn start(self) -> u32
        ensures { result ≡ layout_start self }
    {
        match self {
            Part::Code => CODE_START,
            Part::Memory => MEMORY_START,
            Part::Table => TABLE_START,
        }
    }

    /// The most bytes that it may have.
    pub fn size(self) -> u32
        ensures { result ≡ size_of self }
    {
        match self {
            Part::Code => 4 * MOST_CODE_WORDS,
            Part::Memory => MEMORY_SIZE,
            Part::Table => TABLE_SIZE,
        }
    }
}
