//! Where a box is.

use ir_picture::Point;

/// Where a box is.
#[derive(Clone, Copy, Debug, PartialEq, Eq)]
pub struct Spot {
    /// Where it starts.
    pub start: Point,
    /// Where it ends.
    pub end: Point,
    /// Where it would start, by `u`, if it needed no other thread.
    pub came: u64,
}

/// Where a box is that has no place yet.
pub const NOT_PLACED: Spot = Spot {
    start: Point { x: 0, u: 0 },
    end: Point { x: 0, u: 0 },
    came: 0,
};
