//! A link of the chain of waits.

use ir_past::Place;

/// An event that waited, and what it waited for.
#[derive(Clone, Copy, Debug, PartialEq, Eq)]
pub struct Link {
    /// The event that waited.
    pub waiting: Place,
    /// The event of another thread that it needed, and that is placed latest of those.
    pub needed: Place,
}
