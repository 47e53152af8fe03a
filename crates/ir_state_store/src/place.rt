//! Where the numbers of a state are.

ghost use Rattle.ir_state_store.specs.Places as places;

use ir_image::Code;
use std::marker::Model;

/// Where the numbers of a state are, in the lists of all states.
#[derive(Drop)]
pub struct Place<'a> {
    /// The code of the state.
    pub code: &'a Code,
    /// The place of its first thread's number.
    pub thread: u32,
    /// How many threads it has.
    pub threads: u32,
    /// The place of its first object.
    pub object: u32,
    /// How many objects it has.
    pub objects: u32,
}

impl<'a> Model for Place<'a> {
    ghost Value = { places.StorePlace };

    ghost view = { λ p. record {
      code = p.code.now;
      thread = p.thread;
      threads = p.threads;
      object = p.object;
      objects = p.objects;
    } };
}
