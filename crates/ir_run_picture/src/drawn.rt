//! A box with its last step.

use ir_picture::PlacedBox;

/// A box with its last step.
#[derive(Clone, Copy, Debug, PartialEq, Eq)]
pub struct Drawn {
    /// The box.
    pub own: PlacedBox,
    /// How many steps its thread took before its last step, if it has one event and that is ever left.
    pub last: Option<u64>,
}
