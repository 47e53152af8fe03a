//! Seeds in a row.

/// Seeds, from the first to the last. There is none where the first is above the last.
#[derive(Clone, Copy, Debug, PartialEq, Eq)]
pub struct Seeds {
    /// The first.
    pub first: u64,
    /// The last.
    pub last: u64,
}
