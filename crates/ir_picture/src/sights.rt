//! What a box sees of another thread.

use crate::placed_box::PlacedBox;

/// A version of an object that a thread finds for the first time, and that another thread made.
#[derive(Clone, Copy, Debug, PartialEq, Eq)]
pub struct Sight {
    /// The object.
    pub object: u8,
    /// The box of the write entry that made the version.
    pub maker: PlacedBox,
    /// The box of the entry that finds it.
    pub seer: PlacedBox,
}
