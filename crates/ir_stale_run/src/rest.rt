//! How a write rests on a read.

use crate::reason::Reason;

/// How a write rests on a read that was written over: a word that was read and is another at the write, and what the thread
/// would have done otherwise.
#[derive(Clone, Copy, Debug, PartialEq, Eq)]
pub struct Rest {
    /// The index of the word in the object: the least that was read and is another.
    pub word: u8,
    /// The word that was read.
    pub was: u32,
    /// The word that was there when the thread wrote.
    pub is: u32,
    /// What the thread would have done otherwise.
    pub reason: Reason,
}
