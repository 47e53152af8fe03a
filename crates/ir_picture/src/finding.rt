//! Which box an event is in.

ghost use Rattle.std.specs.Prelude.{◌≡◌, ℕ, Some, IfSome, IfNone};
ghost use Rattle.std.specs.List.{slice_get};
ghost use Rattle.ir_picture.specs.Boxes.{IsInBox};
ghost use Rattle.ir_picture.specs.Boxing.{AreBoxesApart};
ghost use Rattle.ir_picture.specs.Placing.{events_of_all};
ghost use Rattle.ir_picture.specs.Shown.{begins_by, is_in, has_box};
ghost use Rattle.ir_picture.specs.declared.placed_box.PlacedBox.{PlacedBox};

use crate::event_box::EventBox;
use crate::placed_box::PlacedBox;
use ir_past::Place;

// Whether the first event of a box is a place, or comes before it.
fn begins_by(own: &EventBox, place: Place) -> bool
    ensures { result ≡ begins_by place.thread place.event own.now }
{
    own.thread < place.thread || own.thread == place.thread && own.event <= place.event
}

// Whether an event is in a box.
fn has(own: &EventBox, place: Place) -> bool
    ensures { (b : PlacedBox) → b.events ≡ own.now → result ≡ is_in place.thread place.event b }
{
    own.thread == place.thread && own.event <= place.event && place.event - own.event < own.count
}

/// The box that an event is in, among boxes by rising thread and event. Time is logarithmic in the boxes.
pub fn box_of(boxes: &[PlacedBox], place: Place) -> Option<PlacedBox>
    requires { AreBoxesApart (events_of_all boxes.now) }
    ensures found { IfSome result (λ b. (k : ℕ) × (slice_get boxes.now k ≡ Some b) × IsInBox b.events place.thread place.event) }
    ensures none { IfNone result ((k : ℕ) (b : PlacedBox) → slice_get boxes.now k ≡ Some b → IsInBox b.events place.thread place.event → ⊥) }
{
    let count = boxes.partition_point(|own| begins_by(&own.events, place));
    if count == 0 {
        return None;
    }
    let own = boxes[count - 1];
    if has(&own.events, place) {
        Some(own)
    } else {
        None
    }
}

/// Whether an event is in one of boxes by rising thread and event. Time is logarithmic in the boxes.
pub fn has_box(boxes: &[PlacedBox], place: Place) -> bool
    requires { AreBoxesApart (events_of_all boxes.now) }
    ensures { result ≡ has_box boxes.now place.thread place.event }
{
    match box_of(boxes, place) {
        Some(_) => true,
        None => false,
    }
}
