//! The entries, or the leaves, of a run by its threads.

ghost use Rattle.std.specs.Prelude.{◌≡◌, ◌≤◌, ◌<◌, ℕ, [], length, OnOk};
ghost use Rattle.ir_trace.specs.Recorded.{recorded_thread};
ghost use Rattle.ir_fit.specs.Placed.{placed_at, enter_if, entered_by};
ghost use Rattle.ir_fit.specs.Listed.{AddsAll, left_by_event};

use crate::leave::Leave;
use crate::place::Place;
use crate::places::Places;
use crate::stretch::Stretch;
use crate::visit_kind::VisitKind;
use crate::visits::{Rooms, Visits};
use ir_log::Event;
use ir_runs::Access;
use ir_trace::Trace;
use std::alloc::AllocError;

// The entries of a run, or its leaves: what is known of the threads' steps, and for how many visits of each object there is
// room. The entries are among the events of the trace.
#[derive(Clone, Copy)]
pub struct RunVisits<'a> {
    pub kind: VisitKind,
    pub rooms: &'a Rooms,
    pub trace: &'a Trace,
    pub places: &'a [Places],
    pub ghost threads: { length places.now ≤ length trace.now.threads },
    pub ghost positions: { (t : ℕ) → t < length places.now → length (recorded_thread trace.now t).events ≤ length (placed_at places.now t).entries },
}

// One more event of the thread, logged at this position.
fn add_entry(
    visits: &mut Visits,
    rooms: &Rooms,
    thread: u8,
    event: Event,
    position: u64,
) -> Result<(), AllocError>
    ensures { OnOk result (AddsAll visits.old visits.new (enter_if thread event position [])) }
{
    let (object, access, version) = match event {
        Event::Answer(..) | Event::Try { .. } => return Ok(()),
        Event::Read { object, version } => (object, Access::Reading, version),
        Event::Write {
            object,
            version,
            ..
        } => (object, Access::Writing, version),
    };
    visits.add(
        rooms,
        object,
        access,
        Place {
            position,
            version,
            thread,
        },
    )
}

// The entries among events of the thread, which are at these positions.
fn add_entries(
    visits: &mut Visits,
    rooms: &Rooms,
    thread: u8,
    events: &[Event],
    positions: &[u64],
) -> Result<(), AllocError>
    requires { length events.now ≤ length positions.now }
    ensures { OnOk result (AddsAll visits.old visits.new (entered_by thread events.now positions.now)) }
{
    for place in 0..events.len() {
        add_entry(visits, rooms, thread, events[place], positions[place])?;
    }
    Ok(())
}

// Leaves of the thread.
fn add_leaves(
    visits: &mut Visits,
    rooms: &Rooms,
    thread: u8,
    leaves: &[Leave],
) -> Result<(), AllocError>
    ensures { OnOk result (AddsAll visits.old visits.new (left_by_event thread leaves.now)) }
{
    for leave in leaves {
        let place = Place {
            position: leave.position,
            version: leave.version,
            thread,
        };
        visits.add(rooms, leave.object, leave.access, place)?;
    }
    Ok(())
}

impl RunVisits<'_> {
    ghost use Rattle.ir_fit.specs.PartlyListed.{count_of, visits_between};

    // How many events thread t has, or how many leaves.
    pub fn count(&self, t: usize) -> usize
        requires { t < length self.now.places.now }
        ensures { result ≡ count_of self.now t }
    {
        match self.kind {
            VisitKind::Entries => self.trace.threads()[t].log().events().len(),
            VisitKind::Leaves => self.places[t].leaves().len(),
        }
    }

    // How many of these its thread had at the end of the stretch.
    pub fn count_by(&self, stretch: Stretch) -> usize {
        match self.kind {
            VisitKind::Entries => stretch.events as usize,
            VisitKind::Leaves => stretch.leaves as usize,
        }
    }

    // Adds the visits of thread t's events, or leaves, from number `from` on and before number `to`.
    pub fn add(
        &self,
        visits: &mut Visits,
        t: usize,
        from: usize,
        to: usize,
    ) -> Result<(), AllocError>
        requires thread { t < length self.now.places.now }
        requires order { from ≤ to }
        requires within { to ≤ count_of self.now t }
        ensures { OnOk result (AddsAll visits.old visits.new (visits_between self.now t from to)) }
    {
        let recorded = &self.trace.threads()[t];
        let places = &self.places[t];
        let thread = t as u8;
        match self.kind {
            VisitKind::Entries => {
                let events = &recorded.log().events()[from..to];
                add_entries(
                    visits,
                    self.rooms,
                    thread,
                    events,
                    &places.entries()[from..],
                )
            }
            VisitKind::Leaves => {
                add_leaves(visits, self.rooms, thread, &places.leaves()[from..to])
            }
        }
    }
}
