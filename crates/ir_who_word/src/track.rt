//! The holds of a thread on a walk over the run.

use crate::hold::Hold;

/// The holds of a thread: those that it has left, and those that come.
#[derive(Drop)]
pub struct Track {
    /// All of them, in the order of their leaves.
    pub holds: Vec<Hold>,
    /// How many of them have been left.
    pub next: usize,
    /// The position from which on its steps are looked at: none of its entries is before it.
    pub from: u64,
    /// The last of the steps that were looked at and put the word.
    pub put: Option<u64>,
}
