//! Where a thread reads an object and then writes it.

/// The positions of a row: how many steps its thread took before.
#[derive(Clone, Copy, Debug, PartialEq, Eq)]
pub struct Span {
    /// The place of the row among all.
    pub row: usize,
    /// The object.
    pub object: u8,
    /// Behind the read entry.
    pub read: u64,
    /// Behind the write entry.
    pub write: u64,
    /// Behind the leave after the write entry.
    pub end: u64,
}
