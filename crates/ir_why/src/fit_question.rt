//! What is asked about an event of a run.

use crate::question::Question;

/// The event, how long a chain is told, and the positions of the threads that are asked about, if they are.
#[derive(Debug, Drop)]
pub struct FitQuestion {
    /// The event, and how long a chain is told.
    pub what: Question,
    /// A position for each thread.
    pub at: Option<Vec<u64>>,
}
