//! Where a thread holds an object for writing.

/// The positions of a write entry and of its leave: how many steps its thread took before.
#[derive(Clone, Copy, Debug, PartialEq, Eq)]
pub struct Hold {
    /// The version that it makes.
    pub row: usize,
    /// The position of the entry.
    pub entry: u64,
    /// The position of the leave.
    pub leave: u64,
}
