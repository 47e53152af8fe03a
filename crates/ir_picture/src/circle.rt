//! Events that need each other in a circle.

/// The next event of the lowest thread whose events can't all be placed, each after all that it needs.
#[derive(Clone, Copy, Debug, PartialEq, Eq)]
pub struct Circle {
    /// The thread.
    pub thread: u8,
    /// The event, by its place in the thread's log.
    pub event: u32,
}
