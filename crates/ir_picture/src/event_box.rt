//! Events that a picture has in one box.

/// Events of a thread that follow each other: one, or a fold of some that see nothing new.
#[derive(Clone, Copy, Debug, PartialEq, Eq)]
pub struct EventBox {
    /// The number of the thread.
    pub thread: u8,
    /// The first of the events, by its place in the thread's log.
    pub event: u32,
    /// How many there are.
    pub count: u32,
}
