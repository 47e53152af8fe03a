//! An event that is needed.

use ir_log::Event;
use ir_past::Place;

/// An event that another one needs.
#[derive(Clone, Copy)]
pub struct Need {
    /// Where it is.
    pub place: Place,
    /// What it logged.
    pub event: Event,
    /// How many steps its thread takes before it leaves what the event entered, if it does.
    pub left: Option<u64>,
}
