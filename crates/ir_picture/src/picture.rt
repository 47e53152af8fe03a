//! A picture of a trace.

use crate::placed_box::{PlacedBox, Point};
use ir_past::StaleWrite;

/// The boxes of a trace, or of a part of it, with what goes with them.
#[derive(Drop)]
pub struct Picture {
    /// The boxes, by rising thread and event.
    pub boxes: Vec<PlacedBox>,
    /// Where each thread of the trace ends.
    pub ends: Vec<Point>,
    /// The stale writes of which the read and the write are in these boxes.
    pub stale: Vec<StaleWrite>,
}
