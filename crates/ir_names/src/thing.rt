//! What a name is of.

/// What a name is of.
#[derive(Clone, Copy, Debug, PartialEq, Eq, Hash)]
pub enum Thing {
    /// A thread, by its number.
    Thread(u64),
    /// An object, by its number.
    Object(u64),
    /// A word, by the number of its object and its own.
    Word(u64, u64),
    /// An address of the code.
    Address(u32),
}
