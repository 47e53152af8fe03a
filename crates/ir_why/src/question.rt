//! What is asked about an event.

/// The event, and how long a chain is told.
#[derive(Clone, Copy, Debug, PartialEq, Eq)]
pub struct Question {
    /// The number of the event's thread.
    pub thread: u32,
    /// Its place in its thread's log, from 0.
    pub event: u32,
    /// How many links of the chain of waits there may be.
    pub most: u32,
}
