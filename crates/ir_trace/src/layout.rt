//! The numbers of a trace's layout.

/// The bytes `IRT1`, the lowest first: the magic of a trace of the first profile.
pub const MAGIC_ONE: u32 = 0x3154_5249;

/// The bytes `IRT2`, the lowest first: the magic of a trace of the second profile.
pub const MAGIC_TWO: u32 = 0x3254_5249;

/// The value of an input at its end.
pub const INPUT_END: u32 = 0xffff_ffff;

/// How many bytes come before the threads.
pub const HEADER_LENGTH: usize = 16;

/// How many bytes of a thread come before its events.
pub const THREAD_LENGTH: usize = 17;

/// How many bytes the result of a call has.
pub const ANSWER_LENGTH: usize = 5;

/// How many bytes an entry for reading has.
pub const READ_LENGTH: usize = 6;

/// How many bytes an entry for writing has.
pub const WRITE_LENGTH: usize = 10;

/// How many bytes a refused try has.
pub const TRY_LENGTH: usize = 2;
