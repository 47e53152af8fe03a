//! The limits of guests, and the numbers of an image's layout.

/// The address of the first word of the code.
pub const CODE_START: u32 = 0x0001_0000;

/// The address of the first byte of private memory.
pub const MEMORY_START: u32 = 0x0010_0000;

/// How many bytes a thread's private memory has: the most bytes of data.
pub const MEMORY_SIZE: u32 = 0x0001_0000;

/// How many bytes there are before the entries.
pub const COUNTS_LENGTH: usize = 14;

/// The most words of code.
pub const MOST_CODE_WORDS: u32 = 16_384;
