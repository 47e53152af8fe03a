//! Where the boxes of events start.

ghost use Rattle.ir_picture.specs.Boxes.{HasBox};
ghost use Rattle.ir_picture.specs.Boxing.{AreBoxesApart};
ghost use Rattle.ir_picture.specs.Placing.{events_of_all};
ghost use Rattle.ir_picture.specs.Shown.{StartsAt};

use ir_past::Place;
use ir_picture::{PlacedBox, box_of};

/// Where the box of an event starts.
pub fn start_of(boxes: &[PlacedBox], place: Place) -> u64
    requires apart { AreBoxesApart (events_of_all boxes.now) }
    requires there { HasBox (events_of_all boxes.now) place.thread place.event }
    ensures { StartsAt boxes.now place.thread place.event result }
{
    match box_of(boxes, place) {
        Some(own) => own.start.x,
        None => 0,
    }
}
