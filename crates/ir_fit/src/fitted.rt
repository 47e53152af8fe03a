//! A guest with the trace of one of its runs.

ghost use Rattle.std.specs.Prelude.{◌≡◌, ◌<◌, length, IfOk};
ghost use Rattle.ir_fit.specs.Fit.{FittedTrace, HasRun};
ghost use Rattle.ir_fit.specs.Placed.{placed_at, IsListing, all_entered, all_events_left, placed_of};
ghost use Rattle.ir_fit.specs.Within.{IsFitted};
ghost use Rattle.ir_fit.specs.Listed.{OnlyEntries, AllEntries, OnlyLeaves, AllLeaves};

use crate::leave::Leave;
use crate::place::Place;
use crate::places::Places;
use crate::stretch::Stretch;
use crate::visiting::{entered, left, rooms};
use crate::visits::Visits;
use ir_image::Image;
use ir_runs::Access;
use ir_trace::Trace;
use std::alloc::{AllocError, Global};
use std::marker::Model;

/// A guest and a trace that a run of it has. Kept beside them is where each thread's events and leaves are among its steps.
#[derive(Drop)]
pub struct Fitted {
    image: Image,
    trace: Trace,
    places: Vec<Places>,
    entered: Visits,
    left: Visits,
}

impl Model for Fitted {
    ghost Value = { FittedTrace };

    ghost view = { λ f. record { guest = f.image; recorded = f.trace } };

    ghost invariant = { λ f. HasRun (record { guest = f.image; recorded = f.trace })
        × (f.places.items ≡ placed_of (record { guest = f.image; recorded = f.trace }))
        × IsListing (all_entered f.trace f.places.items) f.entered × IsListing (all_events_left f.places.items) f.left };
}

impl Fitted {
    // The guest, the trace that one of its runs has, the positions in this run, and stretches of it, in whose order its visits
    // are listed.
    pub(crate) fn new(
        alloc: Global,
        image: Image,
        trace: Trace,
        places: Vec<Places>,
        stretches: &[Stretch],
    ) -> Result<Fitted, AllocError>
        requires run { HasRun (record { guest = image; recorded = trace }) }
        requires places { places.items ≡ placed_of (record { guest = image; recorded = trace }) }
        ensures { IfOk result (λ f. f ≡ record { guest = image; recorded = trace }) }
    {
        let rooms = rooms(&trace);
        let entered = entered(alloc, &rooms, &trace, &places, stretches)?;
        let left = left(alloc, &rooms, &trace, &places, stretches)?;
        Ok(Fitted {
            image,
            trace,
            places,
            entered,
            left,
        })
    }

    /// Does nothing. For proofs: there is a complete run of the guest with the trace, which is within its limits.
    pub fn known(&self)
        ensures { IsFitted self.now }
    {
        self.trace.threads();
    }

    /// The guest.
    pub fn image(&self) -> &Image
        ensures value { result.now ≡ self.now.guest }
        ensures within { HasRun self.now }
    {
        &self.image
    }

    /// The trace.
    pub fn trace(&self) -> &Trace
        ensures value { result.now ≡ self.now.recorded }
        ensures within { HasRun self.now }
    {
        &self.trace
    }

    /// For each event of thread t, in order, how many steps the thread took before it.
    pub fn entries(&self, t: usize) -> &[u64]
        requires { t < length self.now.guest.entries }
        ensures { result.now ≡ (placed_at (placed_of self.now) t).entries }
    {
        self.places[t].entries()
    }

    /// The leaves of thread t, in order; those after its end are among them.
    pub fn leaves(&self, t: usize) -> &[Leave]
        requires { t < length self.now.guest.entries }
        ensures { result.now ≡ (placed_at (placed_of self.now) t).leaves }
    {
        self.places[t].leaves()
    }

    /// The steps by which threads entered the object for such access at this version. None, where the guest has no such
    /// object or the run no such entry. A write entry is found where its version says; read entries are searched, in the
    /// logarithm of their number.
    pub fn entries_at(&self, object: u8, access: Access, version: u32) -> &[Place]
        ensures only { OnlyEntries self.now object access version result.now }
        ensures all { AllEntries self.now object access version result.now }
    {
        self.entered.at(object, access, version)
    }

    /// The steps by which threads left the object after such access at this version, those after a thread's end among
    /// them. None, where the guest has no such object or the run no such leave. A writer's leave is found where its
    /// version says; readers' leaves are searched, in the logarithm of their number.
    pub fn leaves_at(&self, object: u8, access: Access, version: u32) -> &[Place]
        ensures only { OnlyLeaves self.now object access version result.now }
        ensures all { AllLeaves self.now object access version result.now }
    {
        self.left.at(object, access, version)
    }
}
