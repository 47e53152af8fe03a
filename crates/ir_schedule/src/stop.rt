//! Why a run stops before its end.

/// Why a run stops before its end.
#[derive(Clone, Copy, Debug, PartialEq, Eq)]
pub enum Stop {
    /// The world of this thread failed.
    World(u8),
    /// The turns don't fit.
    TooLong,
}
