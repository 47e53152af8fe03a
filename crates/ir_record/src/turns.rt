//! Orders as turns.

/// `count` turns of one thread, one after the other. A turn of what is no thread is no step.
#[derive(Clone, Copy, Debug, PartialEq, Eq)]
pub struct Turns {
    /// The thread.
    pub thread: u8,
    /// How many turns.
    pub count: u64,
}
