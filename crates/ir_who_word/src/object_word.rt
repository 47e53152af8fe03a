//! A word of an object.

/// Which word of which object.
#[derive(Clone, Copy, Debug, PartialEq, Eq)]
pub struct ObjectWord {
    /// The number of the object.
    pub object: u8,
    /// The number of the word.
    pub index: u8,
}
