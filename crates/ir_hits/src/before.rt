//! What a point notes of a thread before a step.

/// What a point notes of a thread before the thread's next step.
#[derive(Clone, Copy, Debug, PartialEq, Eq)]
pub enum Before {
    /// Nothing from which a hit may follow.
    Nothing,
    /// The watched word of private memory.
    Word(u32),
    /// The thread's next step puts the watched word of an object.
    Putting,
    /// The thread is inside the watched object for writing.
    Inside,
}
