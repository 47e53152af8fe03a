//! The rows of a thread on a walk over the run.

use crate::kept::Open;
use crate::span::Span;

/// The rows of a thread: those that come, and those that are open.
#[derive(Drop)]
pub struct Watch {
    /// The positions of all its rows that are left, in the order of their read entries.
    pub spans: Vec<Span>,
    /// How many of them have been opened.
    pub next: usize,
    /// Those that are open.
    pub opened: Vec<Open>,
}
