//! The part of a picture that is near an event.

ghost use Rattle.std.specs.Prelude.{◌≡◌, ◌^◌, ◌<◌, ℕ, Some, OnOk, IfOk, IfErr};
ghost use Rattle.ir_picture.specs.Boxing.{AreBoxesApart};
ghost use Rattle.ir_picture.specs.Placing.{events_of_all};
ghost use Rattle.ir_picture.specs.Shown.{StartsAt, AreShown, is_near, is_shown, shown_stale};
ghost use Rattle.ir_picture.specs.Answers.{IsThereIn, IsAbsent};
ghost use Rattle.ir_picture.specs.declared.asked.Around.{Around};
ghost use Rattle.ir_past.specs.declared.absent.Absent.{Absent};
ghost use Rattle.ir_past.specs.declared.ask_err.AskErr.TheVariants as ask;

use crate::asked::Around;
use crate::finding::{box_of, has_box};
use crate::placed_box::PlacedBox;
use ir_past::{Absent, AskErr, Place, StaleWrite};
use ir_trace::Trace;
use std::alloc::{AllocError, Global};

/// Fails where a trace doesn't have the event that a part is asked for around.
///
/// # Errors
/// There is no such thread, or it has no such event.
pub fn is_there(trace: &Trace, near: &Option<Around>) -> Result<(), AskErr>
    ensures ok { OnOk result (IsThereIn trace.now near.now) }
    ensures fails { IfErr result (λ e. (what : Absent) × (e ≡ ask.Absent what) × IsAbsent near.now trace.now what) }
{
    let Some(near) = near else {
        return Ok(());
    };
    let Some(thread) = trace.threads().get(near.thread as usize) else {
        return Err(AskErr::Absent(Absent::Thread));
    };
    if near.event as usize >= thread.log().events().len() {
        return Err(AskErr::Absent(Absent::Event));
    }
    Ok(())
}

// Whether a box starts within `span` of x.
fn is_near(x: u64, span: u64, own: &PlacedBox) -> bool
    ensures { result ≡ is_near x span own.now }
{
    own.start.x.abs_diff(x) <= span
}

// The boxes that start near an event that is in one.
fn near_boxes(
    alloc: Global,
    boxes: &[PlacedBox],
    near: &Around,
) -> Result<Vec<PlacedBox>, AllocError>
    requires small { near.now.thread < 2 ^ 8 }
    requires apart { AreBoxesApart (events_of_all boxes.now) }
    requires there { (x : ℕ) × StartsAt boxes.now near.now.thread near.now.event x }
    ensures { IfOk result (λ v. AreShown boxes.now (Some near.now) v.items) }
{
    let mut shown = Vec::new(alloc);
    let place = Place {
        thread: near.thread as u8,
        event: near.event,
    };
    let Some(middle) = box_of(boxes, place) else {
        return Ok(shown);
    };
    for own in boxes {
        if is_near(middle.start.x, near.span, own) {
            shown.push(*own)?;
        }
    }
    Ok(shown)
}

/// The boxes that are shown: all, or those that start near an event that there is.
///
/// # Errors
/// Out of memory.
pub fn shown_boxes(
    alloc: Global,
    boxes: &[PlacedBox],
    near: &Option<Around>,
) -> Result<Vec<PlacedBox>, AllocError>
    requires apart { AreBoxesApart (events_of_all boxes.now) }
    requires small { (a : Around) → near.now ≡ Some a → a.thread < 2 ^ 8 }
    requires there { (a : Around) → near.now ≡ Some a → (x : ℕ) × StartsAt boxes.now a.thread a.event x }
    ensures { IfOk result (λ v. AreShown boxes.now near.now v.items) }
{
    match near {
        None => Vec::from_slice(alloc, boxes),
        Some(near) => near_boxes(alloc, boxes, near),
    }
}

/// Whether the write and the read of a stale write are in these boxes, which are some of a trace's. Time is logarithmic in the boxes.
pub fn is_shown(boxes: &[PlacedBox], row: &StaleWrite) -> bool
    requires { AreBoxesApart (events_of_all boxes.now) }
    ensures { result ≡ is_shown boxes.now row.now }
{
    let thread = row.thread;
    let write = Place {
        thread,
        event: row.event,
    };
    let read = Place {
        thread,
        event: row.read,
    };
    has_box(boxes, write) && has_box(boxes, read)
}

/// The stale writes that are shown where these boxes are.
///
/// # Errors
/// Out of memory.
pub fn shown_stale(
    alloc: Global,
    boxes: &[PlacedBox],
    rows: &[StaleWrite],
) -> Result<Vec<StaleWrite>, AllocError>
    requires { AreBoxesApart (events_of_all boxes.now) }
    ensures { IfOk result (λ v. v.items ≡ shown_stale boxes.now rows.now) }
{
    let mut shown = Vec::new(alloc);
    for row in rows {
        if is_shown(boxes, row) {
            shown.push(*row)?;
        }
    }
    Ok(shown)
}
