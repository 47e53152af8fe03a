//! What a line asks of a recorded run.

/// The form of a question: the word that its line begins with, and what may follow.
#[derive(Clone, Copy, Debug, PartialEq, Eq)]
pub enum Form {
    /// `who`.
    Who,
    /// `stale`.
    Stale,
    /// `why`.
    Why,
    /// `events`.
    Events,
}

/// What a line asks of a recorded run.
#[derive(Clone, Copy, Debug, PartialEq, Eq)]
pub enum Asked {
    /// All versions of an object.
    Object(u32),
    /// A version of an object.
    Version(u32, u32),
    /// A word of an object, through its versions.
    Word(u32, u32),
    /// The writes that rest on stale reads.
    Stale,
    /// An event of a thread: why it came when it did.
    Event(u32, u32),
    /// The last event that the current thread has logged.
    LastEvent,
    /// The events of all threads.
    Events,
    /// The events of a thread.
    ThreadEvents(u32),
    /// A question of this form that isn't written as it is.
    Misspelt(Form),
}
