//! What runs a guest by items.

use ir_flat::Flat;
use ir_record::Item;

/// A guest that runs by items.
#[derive(Drop)]
pub struct Mover<'a, W> {
    /// Its threads and objects.
    pub flat: Flat<'a>,
    /// The worlds of its threads, one each.
    pub worlds: Vec<W>,
    /// The turns so far that took a step.
    pub items: Vec<Item>,
}
