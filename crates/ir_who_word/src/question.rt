//! What is asked about a run.

/// An object, and which of its words.
#[derive(Clone, Copy, Debug, PartialEq, Eq)]
pub struct Question {
    /// The number of the object.
    pub object: u32,
    /// The number of the word.
    pub word: u32,
}
