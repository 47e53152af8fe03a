//! Where a thread is with an object that it read and then writes.

/// Where a thread is with an object, from its read entry to the leave after its write entry.
#[derive(Clone, Copy, Debug, PartialEq, Eq)]
pub enum Hold {
    /// It holds the object after its read entry.
    Reading,
    /// It has left the object, and hasn't entered it again.
    Between,
    /// It has entered the object for writing.
    Writing,
}
