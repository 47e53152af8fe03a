//! Where a thread's events and leaves are among its steps, while it takes them.

ghost use Rattle.std.specs.Prelude.{◌≡◌, ◌<◌, ◌≤◌, ◌++◌, [], ◌∷◌, length, map, IfOk, vec_len, vec_capacity};
ghost use Rattle.ir_fit.specs.Growing.{Growing, grown};

use crate::leave::Leave;
use crate::places::Places;
use std::alloc::{AllocError, Global};
use std::marker::Model;

/// The positions of a thread's events and its leaves so far, with room for a number of each.
#[derive(Drop)]
pub struct GrowingPlaces {
    entries: Vec<u64>,
    leaves: Vec<Leave>,
    room: usize,
}

impl Model for GrowingPlaces {
    ghost Value = { Growing };

    ghost view = { λ p. record { entries = p.entries.items; leaves = p.leaves.items; room = p.room } };

    ghost invariant = { λ p. (vec_len p.entries ≤ p.room) × (p.room ≤ vec_capacity p.entries) × (vec_len p.leaves ≤ p.room) × (p.room ≤ vec_capacity p.leaves) };
}

impl GrowingPlaces {
    // None, with room for `room` of them.
    pub fn new(alloc: Global, room: usize) -> Result<GrowingPlaces, AllocError>
        ensures { IfOk result (λ p. p ≡ record { entries = []; leaves = []; room = room }) }
    {
        Ok(GrowingPlaces {
            entries: Vec::with_capacity(alloc, room)?,
            leaves: Vec::with_capacity(alloc, room)?,
            room,
        })
    }

    // The next event is logged at this position.
    pub fn enter(&mut self, position: u64)
        requires { length self.old.entries < self.old.room }
        ensures { self.new ≡ record self.old { entries = self.old.entries ++ position ∷ [] } }
    {
        self.entries.push_reserved(position);
    }

    // The next leave.
    pub fn leave(&mut self, leave: Leave)
        requires { length self.old.leaves < self.old.room }
        ensures { self.new ≡ record self.old { leaves = self.old.leaves ++ leave ∷ [] } }
    {
        self.leaves.push_reserved(leave);
    }

    // How many leaves there are.
    pub fn leave_count(&self) -> usize {
        self.leaves.len()
    }

    fn into_places(self) -> Places
        ensures { result ≡ grown self }
    {
        let GrowingPlaces {
            entries,
            leaves,
            ..
        } = self;
        Places::new(entries, leaves)
    }
}

// What has grown, without the room for more.
pub fn all_grown(alloc: Global, growing: Vec<GrowingPlaces>) -> Result<Vec<Places>, AllocError>
    ensures { IfOk result (λ ps. ps.items ≡ map grown growing.items) }
{
    let mut places = Vec::with_capacity(alloc, growing.len())?;
    for each in growing {
        places.push(each.into_places())?;
    }
    Ok(places)
}
