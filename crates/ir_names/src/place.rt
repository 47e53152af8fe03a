//! Where a word of an answer is.

/// What a word of an answer is about, by what is before it in its line.
#[derive(Clone, Copy, Debug, PartialEq, Eq)]
pub enum Place {
    /// It begins a line of an answer whose lines begin with addresses.
    Begin,
    /// It follows `thread`.
    Thread,
    /// It follows `object`.
    Object,
    /// It follows `read`, `write` or `try`.
    Entry,
    /// It follows the number of an object behind `object`.
    Held,
    /// It follows `word`.
    Word,
    /// It follows `pc`.
    Pc,
    /// It is the value of this word of an object: it follows `words` behind `object O`, and the values of the words below.
    Words(u8),
    /// It is about nothing that has a name.
    Other,
}
