//! What is said of a thread.

/// What is said of a thread where the others have gone as far as any run that follows the trace can.
#[derive(Clone, Copy, Debug, PartialEq, Eq)]
pub enum ThreadVerdict {
    /// The thread is done, as the trace says.
    Same,
    /// Its next step isn't the trace's.
    Disagrees {
        /// The place in the trace's log of the first event that the thread hasn't come to, from 0; the log's length where none is left.
        event: u32,
        /// The thread's position, in steps.
        step: u64,
    },
    /// Its next step is an entry at a version, or with readers, that never come.
    Starves {
        /// The event of the entry, from 0.
        event: u32,
    },
}
