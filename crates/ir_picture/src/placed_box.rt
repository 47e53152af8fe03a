//! Where a box is.

use crate::event_box::EventBox;

/// A place from left to right, by two numbers.
#[derive(Clone, Copy, Debug, PartialEq, Eq)]
pub struct Point {
    /// Where starts and ends of boxes are as near to each other as their order allows.
    pub x: u64,
    /// Where a box of a trace ends as it starts, and the gaps of a run are as long as its steps.
    pub u: u64,
}

/// A box with its place.
#[derive(Clone, Copy, Debug, PartialEq, Eq)]
pub struct PlacedBox {
    /// The events.
    pub events: EventBox,
    /// Where the box starts.
    pub start: Point,
    /// Where it ends.
    pub end: Point,
    /// Where it would start, by `u`, if it needed no other thread.
    pub came: u64,
    /// The row of its thread in which it is drawn, from 0.
    pub row: u64,
}
