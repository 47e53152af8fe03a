//! A turn of a thread beside some objects, by numbers.

use ir_state_store::Spot;

/// A thread enters an object, or tries to, and goes on to where it rests; or it has to wait for the object.
#[derive(Drop)]
pub struct Turn {
    /// The number of the thread before.
    pub from: usize,
    /// Whether it tries.
    pub tries: bool,
    /// Whether the try is refused.
    pub refused: bool,
    /// Whether it has to wait. Then there is nothing after.
    pub waits: bool,
    /// The number of the thread after.
    pub to: usize,
    /// The objects that its steps may be about: first the one that it enters or tries to, then those that it holds.
    pub numbers: Vec<u8>,
    /// These objects before.
    pub spots: Vec<Spot>,
    /// These objects after.
    pub afters: Vec<Spot>,
}
