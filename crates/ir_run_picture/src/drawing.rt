//! The last steps of boxes.

ghost use Rattle.std.specs.Prelude.{◌≡◌, IfOk, OnOk};
ghost use Rattle.ir_past.specs.Past.{event_at};
ghost use Rattle.ir_opened.specs.Positions.{IsInside};
ghost use Rattle.ir_picture.specs.Boxes.{IsBox};
ghost use Rattle.ir_picture.specs.Progress.{AreBoxesOf};
ghost use Rattle.ir_run_picture.specs.Steps.{IsLastStep, IsDrawn, AreDrawn};

use crate::drawn::Drawn;
use ir_fit::Fitted;
use ir_log::Event;
use ir_opened::{leave_of, step_of};
use ir_past::{Place, event_of};
use ir_picture::PlacedBox;
use std::alloc::{AllocError, Global};

/// How many steps a thread took before the last step of an event; none, if that is an entry that is never left.
pub fn last_step(fitted: &Fitted, place: Place) -> Option<u64>
    requires inside { IsInside fitted.now place.thread place.event }
    ensures { IsLastStep fitted.now place.thread place.event (event_at fitted.now.recorded place.thread place.event) result }
{
    fitted.known();
    match event_of(fitted.trace(), place) {
        Event::Read { .. } => leave_of(fitted, place),
        Event::Write { .. } => leave_of(fitted, place),
        Event::Answer(..) => Some(step_of(fitted, place)),
        Event::Try { .. } => Some(step_of(fitted, place)),
    }
}

// A box with its last step.
fn drawn_of(fitted: &Fitted, own: &PlacedBox) -> Drawn
    requires { IsBox fitted.now.recorded (own.now).events }
    ensures { IsDrawn fitted.now own.now result }
{
    fitted.known();
    let place = Place {
        thread: own.events.thread,
        event: own.events.event,
    };
    let last = if own.events.count == 1 {
        last_step(fitted, place)
    } else {
        None
    };
    Drawn { own: *own, last }
}

/// Boxes of a fitted trace with their last steps. Time is linear in the boxes, and for an entry in the entries of its object at its version.
///
/// # Errors
/// Out of memory.
pub fn all_drawn(
    alloc: Global,
    fitted: &Fitted,
    boxes: &[PlacedBox],
) -> Result<Vec<Drawn>, AllocError>
    requires { AreBoxesOf fitted.now.recorded boxes.now }
    ensures { IfOk result (λ v. AreDrawn fitted.now boxes.now v.items) }
{
    let mut drawn = Vec::with_capacity(alloc, boxes.len())?;
    for own in boxes {
        drawn.push(drawn_of(fitted, own))?;
    }
    Ok(drawn)
}
