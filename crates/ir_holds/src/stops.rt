//! Where and when boxes start and end.

ghost use Rattle.std.specs.Prelude.{◌≡◌, IfOk, length};
ghost use Rattle.ir_holds.specs.Stops.{AreStopPlaces};

use crate::span::Span;
use ir_picture::{PlacedBox, Point};
use std::alloc::{AllocError, Global};

/// A box starts or ends.
#[derive(Clone, Copy, Debug, PartialEq, Eq)]
pub struct Stop {
    /// The thread.
    pub thread: u8,
    /// How many steps the thread took before.
    pub step: u64,
    /// Where.
    pub place: Point,
}

/// The starts and ends of boxes that go so.
///
/// # Errors
/// Out of memory.
pub fn stops_of(alloc: Global, boxes: &[PlacedBox], spans: &[Span]) -> Result<Vec<Stop>, AllocError>
    requires { length spans.now ≡ length boxes.now }
    ensures { IfOk result (λ v. AreStopPlaces boxes.now spans.now v.items) }
{
    let mut stops = Vec::new(alloc);
    for number in 0..boxes.len() {
        let own = boxes[number];
        let Span {
            thread,
            first,
            last,
        } = spans[number];
        stops.push(Stop {
            thread,
            step: first,
            place: own.start,
        })?;
        stops.push(Stop {
            thread,
            step: last,
            place: own.end,
        })?;
    }
    Ok(stops)
}
