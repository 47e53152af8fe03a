//! From which step to which a box of a run goes.

/// The steps of a box, each by how many steps its thread took before.
#[derive(Clone, Copy, Debug, PartialEq, Eq)]
pub struct Span {
    /// The number of the thread.
    pub thread: u8,
    /// The step that logs the first event.
    pub first: u64,
    /// The last step of the last event: that which leaves what the event entered, or, if the event is no entry, that which logs it.
    pub last: u64,
}
