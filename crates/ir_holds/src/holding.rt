//! The places of boxes: they are proposed, each is looked at, and all are put right.

ghost use Rattle.std.specs.Prelude.{◌≡◌, ◌^◌, ◌<◌, ℕ, List, Some, length, IfOk};
ghost use Rattle.std.specs.List.{slice_get};
ghost use Rattle.ir_trace.specs.Recorded.{recorded_thread};
ghost use Rattle.ir_picture.specs.Boxes.{IsBox};
ghost use Rattle.ir_picture.specs.Placing.{events_of_all};
ghost use Rattle.ir_picture.specs.declared.event_box.EventBox.{EventBox};
ghost use Rattle.ir_picture.specs.declared.placed_box.Point.{Point};
ghost use Rattle.ir_picture.specs.declared.placed_box.PlacedBox.{PlacedBox};
ghost use Rattle.ir_holds.specs.Open.{AreRising};
ghost use Rattle.ir_holds.specs.Held.{IsHeldEnd, rows_in};
ghost use Rattle.ir_holds.specs.Schedules.{HasSchedule, all_steps, IsNear, AreNear};
ghost use Rattle.ir_holds.specs.Stops.{HoldsMarks, HasMarks};
ghost use Rattle.ir_holds.specs.Checks.{HoldAll};
ghost use Rattle.ir_holds.specs.declared.span.Span.{Span};

use crate::held::HeldBoxes;
use crate::levels::rows_of;
use crate::marks::Marks;
use crate::nearing::nearest;
use crate::proposing::proposed;
use crate::settling::settled;
use crate::span::Span;
use crate::spot::{NOT_PLACED, Spot};
use ir_past::thread_count;
use ir_picture::{EventBox, PlacedBox, Point};
use ir_trace::Trace;
use std::alloc::{AllocError, Global};

// How many steps a thread took.
fn steps_of(trace: &Trace, thread: u8) -> u64
    requires { thread < length trace.now.threads }
    ensures { result ≡ (recorded_thread trace.now thread).steps }
{
    trace.threads()[thread as usize].steps()
}

// A box with its row, where a place was proposed for it, unless that is too far.
fn box_at(events: EventBox, row: usize, spot: Spot, span: &Span) -> PlacedBox
    ensures events { result.events ≡ events }
    ensures row { result.row ≡ row }
    ensures start { (span.now).first < 2 ^ 54 → IsNear (span.now).first result.start }
    ensures end { (span.now).last < 2 ^ 54 → IsNear (span.now).last result.end }
{
    PlacedBox {
        events,
        start: nearest(spot.start, span.first),
        end: nearest(spot.end, span.last),
        came: spot.came,
        row: row as u64,
    }
}

// The place that was proposed for the box of a number.
fn spot_at(spots: &[Spot], number: usize) -> Spot {
    match spots.get(number) {
        Some(spot) => *spot,
        None => NOT_PLACED,
    }
}

// Boxes with their rows, where places were proposed for them.
fn boxes_at(
    alloc: Global,
    events: &[EventBox],
    spans: &[Span],
    rows: &[usize],
    spots: &[Spot],
) -> Result<Vec<PlacedBox>, AllocError>
    requires size { length spans.now ≡ length events.now }
    requires rows { length rows.now ≡ length events.now }
    requires steps { (n : ℕ) (own : Span) → slice_get spans.now n ≡ Some own → (own.first < 2 ^ 54) × (own.last < 2 ^ 54) }
    ensures events { IfOk result (λ v. events_of_all v.items ≡ events.now) }
    ensures rows { IfOk result (λ v. rows_in v.items ≡ rows.now) }
    ensures near { IfOk result (λ v. AreNear v.items spans.now) }
{
    let mut boxes = Vec::with_capacity(alloc, events.len())?;
    for number in 0..events.len() {
        let spot = spot_at(spots, number);
        boxes.push(box_at(events[number], rows[number], spot, &spans[number]))?;
    }
    Ok(boxes)
}

// Where a thread ends.
fn thread_end(trace: &Trace, marks: &Marks, thread: u8) -> Point
    requires thread { thread < length trace.now.threads }
    requires marks { HasMarks marks.now }
    requires few { (recorded_thread trace.now thread).steps < 2 ^ 54 }
    ensures { (boxes : List PlacedBox) (spans : List Span) → HoldsMarks boxes spans marks.now → IsHeldEnd trace.now boxes spans thread result }
{
    let steps = steps_of(trace, thread);
    Point {
        x: marks.past(thread, steps, 0),
        u: marks.come(thread, steps, steps + 1),
    }
}

// Where each thread ends.
fn thread_ends(alloc: Global, trace: &Trace, marks: &Marks) -> Result<Vec<Point>, AllocError>
    requires marks { HasMarks marks.now }
    requires few { (t : ℕ) → t < length trace.now.threads → (recorded_thread trace.now t).steps < 2 ^ 54 }
    ensures threads { IfOk result (λ v. length v.items ≡ length trace.now.threads) }
    ensures each { IfOk result
        (λ v. (boxes : List PlacedBox) (spans : List Span) → HoldsMarks boxes spans marks.now → (t : ℕ) (p : Point)
        → slice_get v.items t ≡ Some p → IsHeldEnd trace.now boxes spans t p) }
{
    let mut ends = Vec::new(alloc);
    for thread in 0..thread_count(trace) {
        ends.push(thread_end(trace, marks, thread))?;
    }
    Ok(ends)
}

// Where the threads of boxes end.
fn ends_at(
    alloc: Global,
    trace: &Trace,
    boxes: &[PlacedBox],
    spans: &[Span],
) -> Result<Vec<Point>, AllocError>
    requires size { length spans.now ≡ length boxes.now }
    requires near { AreNear boxes.now spans.now }
    requires few { (t : ℕ) → t < length trace.now.threads → (recorded_thread trace.now t).steps < 2 ^ 54 }
    ensures threads { IfOk result (λ v. length v.items ≡ length trace.now.threads) }
    ensures each { IfOk result (λ v. (t : ℕ) (p : Point) → slice_get v.items t ≡ Some p → IsHeldEnd trace.now boxes.now spans.now t p) }
{
    let marks = Marks::of(alloc, boxes, spans)?;
    thread_ends(alloc, trace, &marks)
}

/// Boxes of a trace, which go so, with their places and rows, and where their threads end. Time is linear in the events and the boxes, times the
/// threads, times the logarithm of the boxes; should places be proposed that are wrong, for each time that the boxes are put right once more.
///
/// # Errors
/// Out of memory.
pub fn held_boxes(
    alloc: Global,
    trace: &Trace,
    events: &[EventBox],
    spans: &[Span],
) -> Result<HeldBoxes, AllocError>
    requires boxes { (k : ℕ) (b : EventBox) → slice_get events.now k ≡ Some b → IsBox trace.now b }
    requires size { length spans.now ≡ length events.now }
    requires rising { AreRising spans.now }
    requires schedule { HasSchedule trace.now events.now spans.now }
    requires few { all_steps trace.now < 2 ^ 53 }
    ensures { IfOk result (HoldAll trace.now events.now spans.now) }
{
    let rows = rows_of(alloc, spans)?;
    let spots = proposed(alloc, trace, events, spans)?;
    let first = boxes_at(alloc, events, spans, &rows, &spots)?;
    let boxes = settled(alloc, trace, first, spans)?;
    let ends = ends_at(alloc, trace, &boxes, spans)?;
    Ok(HeldBoxes { boxes, ends })
}
