//! Where an event is in a trace.

/// An event, by its thread and its place in that thread's log.
#[derive(Clone, Copy, Debug, PartialEq, Eq)]
pub struct Place {
    /// The number of its thread.
    pub thread: u8,
    /// Its place in its thread's log, from 0.
    pub event: u32,
}
