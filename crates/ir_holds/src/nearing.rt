//! Places that aren't too far.

ghost use Rattle.ir_holds.specs.Schedules.{IsNearestSpot};

use crate::marks::FAR;
use ir_picture::Point;

/// A place, unless it is too far or before a step of this number; then it is one at that step.
pub fn nearest(place: Point, step: u64) -> Point
    ensures { IsNearestSpot step place result }
{
    if place.x < FAR && place.u < FAR && step <= place.u {
        return place;
    }
    Point { x: 0, u: step }
}
