//! The limits of a thread.

/// The most bytes that a thread may print.
pub const MOST_OUTPUT: usize = 65_536;

/// The most events that a thread may log.
pub const MOST_EVENTS: u32 = 1_048_576;

/// The greatest number of an end.
pub const MOST_END: u32 = 14;

/// The most steps that a thread's budget may be.
pub const MOST_BUDGET: u64 = 1_000_000_000_000;
