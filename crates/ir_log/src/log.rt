//! The log of a thread, whose room is made before its events come.

ghost use Rattle.std.specs.Prelude.{◌≡◌, ◌<◌, ◌≤◌, ◌++◌, [], ◌∷◌, length, IfOk, vec_len, vec_capacity};
ghost use Rattle.ir_log.specs.Logged.{Logged, IsLogged};
ghost use Rattle.ir_thread.specs.State.{most_events};

use crate::event::Event;
use std::alloc::{AllocError, Global};
use std::marker::Model;

/// The events of a thread in their order, and room for a number of them, at most `ir_thread::MOST_EVENTS`.
#[derive(Drop)]
pub struct Log {
    kept: Vec<Event>,
    room: usize,
}

impl Model for Log {
    ghost Value = { Logged };

    ghost view = { λ l. record { events = l.kept.items; room = l.room } };

    ghost invariant = { λ l. (vec_len l.kept ≤ l.room) × (l.room ≤ vec_capacity l.kept) × (l.room ≤ most_events) };
}

impl Log {
    /// The log without events, with room for `room` of them.
    ///
    /// # Errors
    /// Out of memory.
    pub fn new(alloc: Global, room: usize) -> Result<Log, AllocError>
        requires { room ≤ most_events }
        ensures { IfOk result (λ l. l ≡ record { events = []; room = room }) }
    {
        Ok(Log {
            kept: Vec::with_capacity(alloc, room)?,
            room,
        })
    }

    /// The log of these events, with room for them alone. It takes no memory.
    pub fn from_events(events: Vec<Event>) -> Log
        requires { vec_len events ≤ most_events }
        ensures { result ≡ record { events = events.items; room = vec_len events } }
    {
        let room = events.len();
        Log { kept: events, room }
    }

    /// The events, in the memory in which the log kept them.
    pub fn into_events(self) -> Vec<Event>
        ensures { result.items ≡ self.events }
    {
        let Log { kept, .. } = self;
        kept
    }

    /// Adds an event at the end, where there is room for it. It takes no memory.
    pub fn push(&mut self, event: Event)
        requires { length self.old.events < self.old.room }
        ensures { self.new ≡ record self.old { events = self.old.events ++ event ∷ [] } }
    {
        self.kept.push_reserved(event);
    }

    /// The events, the first one first.
    pub fn events(&self) -> &[Event]
        ensures value { result.now ≡ self.now.events }
        ensures within { IsLogged self.now }
    {
        self.kept.as_slice()
    }

    /// How many events there is room for, those that are there among them.
    pub fn room(&self) -> usize
        ensures value { result ≡ self.now.room }
        ensures within { IsLogged self.now }
    {
        self.room
    }

    /// An equal log with as much room.
    ///
    /// # Errors
    /// Out of memory.
    pub fn copy(&self) -> Result<Log, AllocError>
        ensures { IfOk result (λ l. l ≡ self.now) }
    {
        let Log { kept: own, room } = self;
        let mut kept = Vec::with_capacity(*own.allocator(), *room)?;
        kept.extend_from_slice(own)?;
        Ok(Log { kept, room: *room })
    }
}
