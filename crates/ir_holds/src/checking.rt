//! Where boxes have to be, by where all are.

ghost use Rattle.std.specs.Prelude.{◌≡◌, ◌^◌, ◌<◌, ℕ, List, true, length, Some};
ghost use Rattle.std.specs.List.{slice_get};
ghost use Rattle.ir_picture.specs.Progress.{AreBoxesOf};
ghost use Rattle.ir_picture.specs.declared.placed_box.PlacedBox.{PlacedBox};
ghost use Rattle.ir_holds.specs.Needing.{HoldsEnds};
ghost use Rattle.ir_holds.specs.Held.{IsHeld};
ghost use Rattle.ir_holds.specs.Schedules.{EachIsHeld};
ghost use Rattle.ir_holds.specs.Stops.{HoldsMarks, HasMarks};
ghost use Rattle.ir_holds.specs.Checks.{IsSpot};
ghost use Rattle.ir_holds.specs.declared.span.Span.{Span};

use crate::marks::Marks;
use crate::needing::Ends;
use crate::span::Span;
use crate::spot::Spot;
use ir_past::{Place, event_of};
use ir_picture::{EventBox, PlacedBox, Point, events_in, later, length_of};
use ir_trace::Trace;

// Where a box of this length has to be, where what it needs ends left of a place.
fn spot_of(marks: &Marks, span: &Span, needed: Point, long: u64) -> Spot
    requires marks { HasMarks marks.now }
    requires first { (span.now).first < 2 ^ 54 }
    requires last { (span.now).last < 2 ^ 54 }
    requires needed { needed.x < 2 ^ 60 }
    requires long { long < 2 ^ 54 }
    ensures { (boxes : List PlacedBox) (spans : List Span) → HoldsMarks boxes spans marks.now → IsSpot boxes spans span.now needed long result }
{
    let free = marks.past(span.thread, span.first, 0);
    let came = marks.come(span.thread, span.first, span.first + 1);
    let start = later(Point { x: free, u: came }, needed);
    let end = Point {
        x: marks.past(span.thread, span.last, start.x + long),
        u: marks.come(span.thread, span.last, start.u),
    };
    Spot { start, end, came }
}

/// The box of a number, where it has to be by where all boxes are.
pub fn right_box(
    trace: &Trace,
    boxes: &[PlacedBox],
    spans: &[Span],
    marks: &Marks,
    ends: &Ends,
    number: usize,
) -> PlacedBox
    requires number { number < length boxes.now }
    requires size { length spans.now ≡ length boxes.now }
    requires boxes { AreBoxesOf trace.now boxes.now }
    requires marks { HoldsMarks boxes.now spans.now marks.now }
    requires ends { HoldsEnds trace.now boxes.now ends.now }
    ensures events { (b : PlacedBox) → slice_get boxes.now number ≡ Some b → result.events ≡ b.events }
    ensures row { (b : PlacedBox) → slice_get boxes.now number ≡ Some b → result.row ≡ b.row }
    ensures held { (s : Span) → slice_get spans.now number ≡ Some s → IsHeld trace.now boxes.now spans.now result s }
{
    let own = boxes[number];
    let EventBox { thread, event, .. } = own.events;
    let first = event_of(trace, Place { thread, event });
    let needed = ends.after_needs_of(events_in(trace, &own.events));
    let spot = spot_of(marks, &spans[number], needed, length_of(first));
    PlacedBox {
        start: spot.start,
        end: spot.end,
        came: spot.came,
        ..own
    }
}

// Whether a box is where it has to be.
fn is_at(own: &PlacedBox, right: &PlacedBox) -> bool
    ensures start { result ≡ true → (own.now).start ≡ (right.now).start }
    ensures end { result ≡ true → (own.now).end ≡ (right.now).end }
    ensures came { result ≡ true → (own.now).came ≡ (right.now).came }
{
    if own.start != right.start {
        return false;
    }
    if own.end != right.end {
        return false;
    }
    own.came == right.came
}

/// Whether all boxes are where they have to be. Time is linear in the events, and in the boxes times the logarithm of their number.
pub fn are_held(
    trace: &Trace,
    boxes: &[PlacedBox],
    spans: &[Span],
    marks: &Marks,
    ends: &Ends,
) -> bool
    requires size { length spans.now ≡ length boxes.now }
    requires boxes { AreBoxesOf trace.now boxes.now }
    requires marks { HoldsMarks boxes.now spans.now marks.now }
    requires ends { HoldsEnds trace.now boxes.now ends.now }
    ensures { result ≡ true → EachIsHeld trace.now boxes.now spans.now }
{
    for number in 0..boxes.len() {
        let right = right_box(trace, boxes, spans, marks, ends, number);
        if !is_at(&boxes[number], &right) {
            return false;
        }
    }
    true
}
