//! Boxes are put where they have to be, until all are there.

ghost use Rattle.std.specs.Prelude.{◌≡◌, length, IfOk, IfSome, IfNone};
ghost use Rattle.ir_picture.specs.Placing.{events_of_all};
ghost use Rattle.ir_picture.specs.Progress.{AreBoxesOf};
ghost use Rattle.ir_holds.specs.Held.{rows_in};
ghost use Rattle.ir_holds.specs.Needing.{HoldsEnds};
ghost use Rattle.ir_holds.specs.Schedules.{EachIsHeld, HasPacing, AreNear, IsNearestSpot, ArePut};
ghost use Rattle.ir_holds.specs.Stops.{HoldsMarks};

use crate::checking::{are_held, right_box};
use crate::marks::Marks;
use crate::nearing::nearest;
use crate::needing::{Ends, ends_of};
use crate::span::Span;
use ir_picture::PlacedBox;
use ir_trace::Trace;
use std::alloc::{AllocError, Global};

// A box that isn't too far.
fn near_box(own: PlacedBox, span: &Span) -> PlacedBox
    ensures events { result.events ≡ own.events }
    ensures row { result.row ≡ own.row }
    ensures came { result.came ≡ own.came }
    ensures start { IsNearestSpot (span.now).first own.start result.start }
    ensures end { IsNearestSpot (span.now).last own.end result.end }
{
    PlacedBox {
        start: nearest(own.start, span.first),
        end: nearest(own.end, span.last),
        ..own
    }
}

// All boxes, where they have to be by where they are.
fn all_put(
    alloc: Global,
    trace: &Trace,
    boxes: &[PlacedBox],
    spans: &[Span],
    marks: &Marks,
    ends: &Ends,
) -> Result<Vec<PlacedBox>, AllocError>
    requires size { length spans.now ≡ length boxes.now }
    requires boxes { AreBoxesOf trace.now boxes.now }
    requires marks { HoldsMarks boxes.now spans.now marks.now }
    requires ends { HoldsEnds trace.now boxes.now ends.now }
    ensures { IfOk result (λ v. ArePut trace.now boxes.now spans.now v.items) }
{
    let mut all = Vec::with_capacity(alloc, boxes.len())?;
    for number in 0..boxes.len() {
        let own = right_box(trace, boxes, spans, marks, ends, number);
        all.push(near_box(own, &spans[number]))?;
    }
    Ok(all)
}

// All boxes, where they have to be by where they are, unless each is there.
fn put_once(
    alloc: Global,
    trace: &Trace,
    boxes: &[PlacedBox],
    spans: &[Span],
) -> Result<Option<Vec<PlacedBox>>, AllocError>
    requires size { length spans.now ≡ length boxes.now }
    requires boxes { AreBoxesOf trace.now boxes.now }
    requires near { AreNear boxes.now spans.now }
    ensures put { IfOk result (λ x. IfSome x (λ v. ArePut trace.now boxes.now spans.now v.items)) }
    ensures held { IfOk result (λ x. IfNone x (EachIsHeld trace.now boxes.now spans.now)) }
{
    let marks = Marks::of(alloc, boxes, spans)?;
    let ends = ends_of(alloc, trace, boxes)?;
    if are_held(trace, boxes, spans, &marks, &ends) {
        return Ok(None);
    }
    let put = all_put(alloc, trace, boxes, spans, &marks, &ends)?;
    Ok(Some(put))
}

/// Boxes that go so, each where it has to be, from any places on. Time is linear in the events, and in the boxes times the logarithm of their number,
/// once for each time that the boxes are put: at most twice as often as there are boxes, and never if each is there.
///
/// # Errors
/// Out of memory.
pub fn settled(
    alloc: Global,
    trace: &Trace,
    first: Vec<PlacedBox>,
    spans: &[Span],
) -> Result<Vec<PlacedBox>, AllocError>
    requires size { length spans.now ≡ length first.items }
    requires boxes { AreBoxesOf trace.now first.items }
    requires near { AreNear first.items spans.now }
    requires pacing { HasPacing trace.now (events_of_all first.items) spans.now }
    ensures events { IfOk result (λ v. events_of_all v.items ≡ events_of_all first.items) }
    ensures rows { IfOk result (λ v. rows_in v.items ≡ rows_in first.items) }
    ensures near { IfOk result (λ v. AreNear v.items spans.now) }
    ensures held { IfOk result (λ v. EachIsHeld trace.now v.items spans.now) }
{
    let mut boxes = first;
    for _ in 0..spans.len() * 2 {
        match put_once(alloc, trace, &boxes, spans)? {
            None => return Ok(boxes),
            Some(put) => boxes = put,
        }
    }
    Ok(boxes)
}
