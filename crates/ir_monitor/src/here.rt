//! Who asks.

/// The thread that asks, and how many steps it has taken.
#[derive(Clone, Copy, Debug, PartialEq, Eq)]
pub struct Here {
    /// The number of the thread.
    pub thread: u32,
    /// Its position.
    pub position: u64,
}
