//! The pass over a run's entries and leaves that lists them by object, access and version.

ghost use Rattle.std.specs.Prelude.{◌≡◌, ◌≤◌, ◌<◌, ℕ, length, IfOk, OnOk};
ghost use Rattle.std.specs.List.{slice_index_or};
ghost use Rattle.ir_trace.specs.Recorded.{recorded_thread};
ghost use Rattle.ir_fit.specs.Placed.{placed_at, IsListing, all_events_left, all_entered};
ghost use Rattle.ir_fit.specs.PartlyListed.{count_of, all_visits, AreListed};

use crate::places::Places;
use crate::run_visits::RunVisits;
use crate::stretch::Stretch;
use crate::visit_kind::VisitKind;
use crate::visits::{Rooms, Visits};
use ir_log::Event;
use ir_runs::Access;
use ir_trace::Trace;
use std::alloc::{AllocError, Global};

// Counts the entries of a log.
fn count_entries(rooms: &mut Rooms, events: &[Event]) {
    for event in events {
        match *event {
            Event::Answer(..) | Event::Try { .. } => (),
            Event::Read { object, .. } => rooms.add(object, Access::Reading),
            Event::Write { object, .. } => rooms.add(object, Access::Writing),
        }
    }
}

// How many entries the trace has of each object. In a whole run there are as many leaves, since each thread leaves what it
// entered, at its end if not before.
pub fn rooms(trace: &Trace) -> Rooms {
    let mut rooms = Rooms::new();
    for thread in trace.threads() {
        count_entries(&mut rooms, thread.log().events());
    }
    rooms
}

// What is listed so far: the visits, and of how many events, or leaves, of each thread they are.
#[derive(Drop)]
struct ListedVisits {
    counts: Vec<usize>,
    visits: Visits,
}

impl ListedVisits {
    // None of the run's.
    fn new(alloc: Global, run: &RunVisits<'_>) -> Result<ListedVisits, AllocError>
        ensures { IfOk result (λ l. AreListed run.now l.counts.items l.visits) }
    {
        Ok(ListedVisits {
            counts: vec![in alloc; 0; run.places.len()]?,
            visits: Visits::new(alloc),
        })
    }

    // Lists the first `count` events of thread t, or leaves, or all if it has fewer. What is listed isn't listed again.
    fn list_to(&mut self, run: &RunVisits<'_>, t: usize, count: usize) -> Result<(), AllocError>
        requires thread { t < length run.now.places.now }
        requires listed { AreListed run.now self.old.counts.items self.old.visits }
        ensures listed { OnOk result (AreListed run.now self.new.counts.items self.new.visits) }
        ensures all { OnOk result (count_of run.now t ≤ count → count_of run.now t ≤ slice_index_or self.new.counts.items t 0) }
        ensures kept { OnOk result ((u : ℕ) → slice_index_or self.old.counts.items u 0 ≤ slice_index_or self.new.counts.items u 0) }
    {
        let from = self.counts[t];
        let to = count.min(run.count(t));
        if from < to {
            run.add(&mut self.visits, t, from, to)?;
            self.counts[t] = to;
        }
        Ok(())
    }

    // Lists what the threads have by the end of each stretch, one after the other.
    fn list_along(&mut self, run: &RunVisits<'_>, stretches: &[Stretch]) -> Result<(), AllocError>
        requires { AreListed run.now self.old.counts.items self.old.visits }
        ensures { OnOk result (AreListed run.now self.new.counts.items self.new.visits) }
    {
        for stretch in stretches {
            let t = stretch.thread as usize;
            if t < run.places.len() {
                self.list_to(run, t, run.count_by(*stretch))?;
            }
        }
        Ok(())
    }

    // Lists all that the threads have.
    fn list_rest(&mut self, run: &RunVisits<'_>) -> Result<(), AllocError>
        requires { AreListed run.now self.old.counts.items self.old.visits }
        ensures listed { OnOk result (AreListed run.now self.new.counts.items self.new.visits) }
        ensures all { OnOk result ((t : ℕ) → t < length run.now.places.now → count_of run.now t ≤ slice_index_or self.new.counts.items t 0) }
    {
        for t in 0..run.places.len() {
            self.list_to(run, t, run.count(t))?;
        }
        Ok(())
    }
}

// All visits of the run. They are added in the order of its stretches, in which the versions of each object rise. So the sort
// has nothing to move, unless stretches are missing. What is listed doesn't depend on them.
fn list_visits(
    alloc: Global,
    run: &RunVisits<'_>,
    stretches: &[Stretch],
) -> Result<Visits, AllocError>
    ensures { IfOk result (IsListing (all_visits run.now)) }
{
    let mut listed = ListedVisits::new(alloc, run)?;
    listed.list_along(run, stretches)?;
    listed.list_rest(run)?;
    let ListedVisits { mut visits, .. } = listed;
    visits.sort()?;
    Ok(visits)
}

/// The entries of all threads, with the room that `rooms` counts.
///
/// # Errors
/// Out of memory.
pub fn entered(
    alloc: Global,
    rooms: &Rooms,
    trace: &Trace,
    places: &[Places],
    stretches: &[Stretch],
) -> Result<Visits, AllocError>
    requires threads { length places.now ≤ length trace.now.threads }
    requires each { (t : ℕ) → t < length places.now → length (recorded_thread trace.now t).events ≤ length (placed_at places.now t).entries }
    ensures { IfOk result (IsListing (all_entered trace.now places.now)) }
{
    let run = RunVisits {
        kind: VisitKind::Entries,
        rooms,
        trace,
        places,
    };
    list_visits(alloc, &run, stretches)
}

/// The leaves of all threads, with the room that `rooms` counts.
///
/// # Errors
/// Out of memory.
pub fn left(
    alloc: Global,
    rooms: &Rooms,
    trace: &Trace,
    places: &[Places],
    stretches: &[Stretch],
) -> Result<Visits, AllocError>
    requires threads { length places.now ≤ length trace.now.threads }
    requires each { (t : ℕ) → t < length places.now → length (recorded_thread trace.now t).events ≤ length (placed_at places.now t).entries }
    ensures { IfOk result (IsListing (all_events_left places.now)) }
{
    let run = RunVisits {
        kind: VisitKind::Leaves,
        rooms,
        trace,
        places,
    };
    list_visits(alloc, &run, stretches)
}
