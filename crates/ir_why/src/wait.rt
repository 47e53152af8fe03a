//! A wait of a chain, with its steps.

use ir_past::Place;

/// An event that waited, and what it waited for.
#[derive(Clone, Copy)]
pub struct Wait {
    /// The event that waited.
    pub waiting: Place,
    /// How many steps its thread takes before the one that logs it.
    pub step: u64,
    /// The event of another thread that it needed.
    pub needed: Place,
    /// How many steps that thread takes before it leaves what the event entered.
    pub left: u64,
}
