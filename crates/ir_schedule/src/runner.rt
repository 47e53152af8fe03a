//! What runs a guest by a chooser.

use ir_flat::Flat;
use ir_record::Turns;

/// A guest that runs by a chooser.
#[derive(Drop)]
pub struct Runner<'a, W> {
    /// Its threads and objects.
    pub flat: Flat<'a>,
    /// The worlds of its threads, one each.
    pub worlds: Vec<W>,
    /// The turns so far. A run makes no memory for more than have room.
    pub turns: Vec<Turns>,
}
