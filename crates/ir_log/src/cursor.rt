//! A place in a log, and what is expected there.

ghost use Rattle.std.specs.Prelude.{◌≡◌, ◌<◌, ◌≤◌, ◌+◌, ℕ, slice_get, Some, IfOk, OnOk, OnErr};
ghost use Rattle.ir_thread.specs.State.{most_events};
ghost use Rattle.ir_log.specs.Asked.{SuitsEvent};
ghost use Rattle.ir_log.specs.declared.event.Event.{Event};

use crate::event::Event;
use crate::log::Log;
use ir_thread::Ask;
use std::marker::Model;

/// The next event doesn't suit what a thread asks for, or there is none.
#[derive(Clone, Copy, Debug, PartialEq, Eq)]
pub struct Disagree;

/// A place in a log: how many events are before it.
#[derive(Clone, Copy, Debug, PartialEq, Eq)]
pub struct Cursor {
    place: usize,
}

impl Model for Cursor {
    ghost Value = { ℕ };

    ghost view = { λ c. c.place };

    ghost invariant = { λ c. c.place ≤ most_events };

    ghost inverse = { λ n. record { place = n } };
}

impl Cursor {
    /// The place of the first event.
    pub fn new() -> Cursor
        ensures { result ≡ 0 }
    {
        Cursor { place: 0 }
    }

    /// The place after `place` events.
    pub fn at(place: usize) -> Cursor
        requires { place ≤ most_events }
        ensures { result ≡ place }
    {
        Cursor { place }
    }

    /// How many events are before this place.
    pub fn place(&self) -> usize
        ensures value { result ≡ self.now }
        ensures within { result ≤ most_events }
    {
        self.place
    }

    /// Moves to the place of the next event.
    pub fn advance(&mut self)
        requires { self.old < most_events }
        ensures { self.new ≡ self.old + 1 }
    {
        self.place += 1;
    }

    /// The event at this place, where a thread may log it that asks so. The place stays, and no memory is taken.
    ///
    /// # Errors
    /// `Disagree` where no event is left, or where the next one is of another kind or another object. A try suits an entry for writing and a
    /// refused try; an ask that nothing is logged of suits no event.
    #[inline(always)]
    pub fn expect(&self, log: &Log, ask: &Ask) -> Result<Event, Disagree>
        ensures next { IfOk result (λ event. slice_get log.now.events self.now ≡ Some event) }
        ensures suits { IfOk result (λ event. SuitsEvent ask.now event) }
        ensures further { OnOk result (self.now < most_events) }
        ensures disagrees { OnErr result ((event : Event) → slice_get log.now.events self.now ≡ Some event → SuitsEvent ask.now event → ⊥) }
    {
        match log.events().get(self.place) {
            Some(event) if event.suits(*ask) => Ok(*event),
            _ => Err(Disagree),
        }
    }
}
