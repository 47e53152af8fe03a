//! What the word of an object says.

/// What the word of an object says.
#[derive(Clone, Copy, Debug, PartialEq, Eq)]
pub struct Fields {
    /// How many times a writer has left the object; below 2^32.
    pub version: u32,
    /// How many readers have left this version; the word has 25 bits for them.
    pub left: u32,
    /// How many readers are inside; the word has 6 bits for them.
    pub inside: u8,
    /// Whether a writer is inside.
    pub writer: bool,
}
