//! The chain of waits of a run: a thread that holds an object may wait for another one before it leaves.

ghost use Rattle.std.specs.Prelude.{◌≡◌, ◌<◌, ℕ, IfOk};
ghost use Rattle.ir_events.specs.Events.{event_entry};
ghost use Rattle.ir_opened.specs.Positions.{IsInside, IsLeaveOf};
ghost use Rattle.ir_picture.specs.Boxes.{AreBoxes};
ghost use Rattle.ir_picture.specs.Placing.{events_of_all};
ghost use Rattle.ir_why.specs.Tables.{HasTables};
ghost use Rattle.ir_why.specs.Waits.{AreWaits, IsLastBefore, IsWait};

use crate::chain::link_from;
use crate::fit_before::events_before;
use crate::link::Link;
use crate::tables::Tables;
use crate::wait::Wait;
use ir_fit::Fitted;
use ir_opened::{leave_of, step_of};
use ir_past::Place;
use ir_picture::PlacedBox;
use std::alloc::{AllocError, Global};

// Where a thread leaves what an event entered, which it does.
fn leave_step(fitted: &Fitted, place: Place) -> u64
    requires inside { IsInside fitted.now place.thread place.event }
    requires left { (k : ℕ) × IsLeaveOf fitted.now place.thread place.event k }
    ensures { IsLeaveOf fitted.now place.thread place.event result }
{
    match leave_of(fitted, place) {
        Some(step) => step,
        None => unreachable!(),
    }
}

// A wait, with its steps.
fn wait_of(fitted: &Fitted, link: &Link) -> Wait
    requires waiting { IsInside fitted.now link.now.waiting.thread link.now.waiting.event }
    requires needed { IsInside fitted.now link.now.needed.thread link.now.needed.event }
    requires left { (k : ℕ) × IsLeaveOf fitted.now link.now.needed.thread link.now.needed.event k }
    ensures { IsWait fitted.now link.now result }
{
    let Link { waiting, needed } = *link;
    let step = step_of(fitted, waiting);
    let left = leave_step(fitted, needed);
    Wait {
        waiting,
        step,
        needed,
        left,
    }
}

// The last event that a thread logs before a step of it, which comes after this event.
fn last_before(fitted: &Fitted, place: Place, step: u64) -> Place
    requires inside { IsInside fitted.now place.thread place.event }
    requires before { event_entry fitted.now place.thread place.event < step }
    ensures thread { result.thread ≡ place.thread }
    ensures last { IsLastBefore fitted.now place.thread step result.event }
{
    let count = events_before(fitted, place.thread as usize, step);
    Place {
        thread: place.thread,
        event: count - 1,
    }
}

/// The chain of waits that led to an event of a run, the last wait first: at most this many. Each wait goes on from the last event that the
/// thread needed by the one before it logs before it leaves what is needed.
///
/// # Errors
/// Out of memory.
pub fn waits_of(
    alloc: Global,
    fitted: &Fitted,
    tables: &Tables,
    boxes: &[PlacedBox],
    here: Place,
    most: u32,
) -> Result<Vec<Wait>, AllocError>
    requires tables { HasTables fitted.now.recorded tables.now }
    requires boxes { AreBoxes fitted.now.recorded (events_of_all boxes.now) }
    requires inside { IsInside fitted.now here.thread here.event }
    ensures { IfOk result (λ waits. AreWaits fitted.now boxes.now most here.thread here.event waits.items) }
{
    fitted.known();
    let mut waits = Vec::new(alloc);
    let mut last = here;
    for _ in 0..most {
        let Some(link) = link_from(alloc, fitted.trace(), tables, boxes, last)? else {
            return Ok(waits);
        };
        let wait = wait_of(fitted, &link);
        last = last_before(fitted, wait.needed, wait.left);
        waits.push(wait)?;
    }
    Ok(waits)
}
