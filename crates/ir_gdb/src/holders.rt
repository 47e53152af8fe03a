//! The breakpoints and the watches that gdb has set.

ghost use Rattle.std.specs.Prelude.{◌≡◌};
ghost use Rattle.std.specs.Vec.{vec_capacity};
ghost use Rattle.ir_gdb.specs.Setting.{is_same_break, is_same_watch, has_break, has_watch, breaks_without, watches_without};
ghost use Rattle.ir_gdb.specs.Stub.{is_shared_break, shared_breaks, most_stub_points};

use crate::guarded::Guarded;
use crate::point::{Breakpoint, Watched};
use ir_debug::MOST_POINTS;
use ir_hits::OBJECTS_START;
use std::alloc::{AllocError, Global};
use std::marker::Model;

// Whether two breakpoints are the same.
pub fn is_same_break(a: Breakpoint, b: Breakpoint) -> bool
    ensures { result ≡ is_same_break a b }
{
    a.address == b.address && a.hardware == b.hardware
}

// Whether two watches are the same.
pub fn is_same_watch(a: Watched, b: Watched) -> bool
    ensures { result ≡ is_same_watch a b }
{
    a.address == b.address && a.size == b.size
}

// Whether a watch is of the objects.
pub fn is_shared(watched: Watched) -> bool
    ensures { result ≡ is_shared_break watched }
{
    OBJECTS_START <= watched.address
}

// Whether there is such a breakpoint.
pub fn has_break(breaks: &[Guarded], point: Breakpoint) -> bool
    ensures { result ≡ has_break breaks.now point }
{
    match breaks {
        [] => false,
        [first, rest @ ..] => is_same_break(first.point(), point) || has_break(rest, point),
    }
}

// Whether there is such a watch.
pub fn has_watch(watches: &[Watched], watched: Watched) -> bool
    ensures { result ≡ has_watch watches.now watched }
{
    match watches {
        [] => false,
        [first, rest @ ..] => is_same_watch(*first, watched) || has_watch(rest, watched),
    }
}

/// The breakpoints that are set, the last at the end, with room for all that may be.
#[derive(Drop)]
pub struct Breaks {
    each: Vec<Guarded>,
}

impl Model for Breaks {
    ghost use Rattle.std.specs.Prelude.{◌≤◌, List};
    ghost use Rattle.std.specs.Vec.{vec_capacity};
    ghost use Rattle.ir_gdb.specs.Guards.{Guarded};
    ghost use Rattle.ir_gdb.specs.Stub.{most_stub_points};

    ghost Value = { List Guarded };

    ghost view = { λ p. p.each.items };

    ghost invariant = { λ p. most_stub_points ≤ vec_capacity p.each };
}

impl Breaks {
    ghost use Rattle.std.specs.Prelude.{◌<◌, ◌++◌, [], ◌∷◌, length, IfOk};

    /// None, with room for 64.
    ///
    /// # Errors
    /// Out of memory.
    pub fn new(alloc: Global) -> Result<Breaks, AllocError>
        ensures { IfOk result (λ points. points ≡ []) }
    {
        let each = Vec::with_capacity(alloc, MOST_POINTS)?;
        Ok(Breaks { each })
    }

    /// The breakpoints.
    pub fn as_slice(&self) -> &[Guarded]
        ensures { result.now ≡ self.now }
    {
        self.each.as_slice()
    }

    /// Sets one more, for which there is room. Takes no memory.
    pub fn set(&mut self, point: Guarded)
        requires { length self.old < most_stub_points }
        ensures { self.new ≡ self.old ++ point ∷ [] }
    {
        self.each.push_reserved(point);
    }

    /// Takes one away.
    pub fn clear(&mut self, point: Breakpoint)
        ensures { self.new ≡ breaks_without self.old point }
    {
        self.each.retain(|each| !is_same_break(each.point(), point));
    }
}

// Takes a watch out of a list of watches.
fn take_out(watches: &mut Vec<Watched>, point: Watched)
    ensures watches { watches.new.items ≡ watches_without watches.old.items point }
    ensures capacity { vec_capacity watches.new ≡ vec_capacity watches.old }
{
    watches.retain(|each| !is_same_watch(*each, point));
}

/// The watches that are set, the last at the end, with room for all that may be.
#[derive(Drop)]
pub struct Watches {
    each: Vec<Watched>,
    // Those of the objects, in the same order.
    shared: Vec<Watched>,
}

impl Model for Watches {
    ghost use Rattle.std.specs.Prelude.{◌≡◌, ◌≤◌, List};
    ghost use Rattle.std.specs.Vec.{vec_capacity};
    ghost use Rattle.ir_gdb.specs.declared.point.Watched.{Watched};
    ghost use Rattle.ir_gdb.specs.Stub.{shared_breaks, most_stub_points};

    ghost Value = { List Watched };

    ghost view = { λ p. p.each.items };

    ghost invariant = { λ p. (most_stub_points ≤ vec_capacity p.each) × (most_stub_points ≤ vec_capacity p.shared) × (p.shared.items ≡ shared_breaks p.each.items) };
}

impl Watches {
    ghost use Rattle.std.specs.Prelude.{◌<◌, ◌++◌, [], ◌∷◌, length, IfOk};

    /// None, with room for 64.
    ///
    /// # Errors
    /// Out of memory.
    pub fn new(alloc: Global) -> Result<Watches, AllocError>
        ensures { IfOk result (λ points. points ≡ []) }
    {
        let each = Vec::with_capacity(alloc, MOST_POINTS)?;
        let shared = Vec::with_capacity(alloc, MOST_POINTS)?;
        Ok(Watches { each, shared })
    }

    /// The watches.
    pub fn as_slice(&self) -> &[Watched]
        ensures { result.now ≡ self.now }
    {
        self.each.as_slice()
    }

    /// Those of the objects.
    pub fn shared(&self) -> &[Watched]
        ensures { result.now ≡ shared_breaks self.now }
    {
        self.shared.as_slice()
    }

    /// Sets one more, for which there is room. Takes no memory.
    #[tactic(auto, using(crate::proofs::Setting::shared_of_more_shared, crate::proofs::Setting::shared_of_more_private, crate::proofs::Setting::shared_are_not_more))]
    pub fn set(&mut self, point: Watched)
        requires { length self.old < most_stub_points }
        ensures { self.new ≡ self.old ++ point ∷ [] }
    {
        self.each.push_reserved(point);
        if is_shared(point) {
            self.shared.push_reserved(point);
        }
    }

    /// Takes one away.
    #[tactic(auto, using(crate::proofs::Setting::shared_of_fewer))]
    pub fn clear(&mut self, point: Watched)
        ensures { self.new ≡ watches_without self.old point }
    {
        take_out(&mut self.each, point);
        take_out(&mut self.shared, point);
    }
}
