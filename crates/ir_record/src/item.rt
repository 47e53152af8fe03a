//! Orders in which tries may be refused.

/// `count` turns of one thread, one after the other. A turn of what is no thread is no step.
#[derive(Clone, Copy, Debug, PartialEq, Eq)]
pub struct Item {
    /// The thread.
    pub thread: u8,
    /// How many turns.
    pub count: u64,
    /// Whether a try in one of them is refused although no thread may be inside. Else it enters if no thread is inside.
    pub refused: bool,
}
