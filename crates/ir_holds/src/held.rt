//! Boxes with their places.

use ir_picture::{PlacedBox, Point};

/// Boxes with their places and rows, and where their threads end.
#[derive(Drop)]
pub struct HeldBoxes {
    /// The boxes.
    pub boxes: Vec<PlacedBox>,
    /// Where each thread ends.
    pub ends: Vec<Point>,
}
