//! Where threads are at the starts and ends of boxes before their steps.

ghost use Rattle.std.specs.Prelude.{◌≡◌, ◌^◌, ◌+◌, ◌<◌, ◌≤◌, ℕ, List, map, max, length, Some, IfOk};
ghost use Rattle.std.specs.List.{slice_get};
ghost use Rattle.ir_picture.specs.Places.{IsLeastAbove};
ghost use Rattle.ir_picture.specs.declared.placed_box.PlacedBox.{PlacedBox};
ghost use Rattle.ir_holds.specs.Held.{IsLeastFrom, MarkedBefore, ComesFrom};
ghost use Rattle.ir_holds.specs.Schedules.{AreNear};
ghost use Rattle.ir_holds.specs.Stops.{IsStopNear, HoldsMarks, HasMarks, stop_number, right_height, late_height};
ghost use Rattle.ir_holds.specs.declared.span.Span.{Span};
ghost use Rattle.ir_holds.specs.declared.stops.Stop.{Stop};

use crate::heights::{Height, Heights};
use crate::span::Span;
use crate::stops::{Stop, stops_of};
use ir_picture::PlacedBox;
use std::alloc::{AllocError, Global};

/// More than any place and any step that is drawn.
pub const FAR: u64 = 1 << 54;

/// The starts and ends of boxes, by the threads' steps: the first x right of them, and how far their u is ahead of their steps.
#[derive(Drop)]
pub struct Marks {
    right: Heights,
    late: Heights,
}

// A number of a thread: all are below those of the next thread.
fn number_in(thread: u8, number: u64) -> u64
    requires { number ≤ 2 ^ 54 }
    ensures { result ≡ stop_number thread number }
{
    thread as u64 * FAR + number
}

// The first x right of each start and end.
fn rights_of(alloc: Global, stops: &[Stop]) -> Result<Vec<Height>, AllocError>
    requires { (k : ℕ) (s : Stop) → slice_get stops.now k ≡ Some s → IsStopNear s }
    ensures { IfOk result (λ v. v.items ≡ map right_height stops.now) }
{
    let mut heights = Vec::with_capacity(alloc, stops.len())?;
    for stop in stops {
        heights.push(Height {
            at: number_in(stop.thread, stop.step),
            top: number_in(stop.thread, stop.place.x + 1),
        })?;
    }
    Ok(heights)
}

// How far the u of each is ahead of its step.
fn lates_of(alloc: Global, stops: &[Stop]) -> Result<Vec<Height>, AllocError>
    requires { (k : ℕ) (s : Stop) → slice_get stops.now k ≡ Some s → IsStopNear s }
    ensures { IfOk result (λ v. v.items ≡ map late_height stops.now) }
{
    let mut heights = Vec::with_capacity(alloc, stops.len())?;
    for stop in stops {
        heights.push(Height {
            at: number_in(stop.thread, stop.step),
            top: number_in(stop.thread, stop.place.u - stop.step + 1),
        })?;
    }
    Ok(heights)
}

impl Marks {
    /// The starts and ends of boxes that go so. Time is linear in the boxes, times the logarithm of their number.
    ///
    /// # Errors
    /// Out of memory.
    pub fn of(alloc: Global, boxes: &[PlacedBox], spans: &[Span]) -> Result<Marks, AllocError>
        requires size { length spans.now ≡ length boxes.now }
        requires near { AreNear boxes.now spans.now }
        ensures { IfOk result (HoldsMarks boxes.now spans.now) }
    {
        let stops = stops_of(alloc, boxes, spans)?;
        let right = Heights::of(alloc, rights_of(alloc, &stops)?)?;
        let late = Heights::of(alloc, lates_of(alloc, &stops)?)?;
        Ok(Marks { right, late })
    }

    /// The least x from `from` on that is right of all at which boxes of a thread start or end before this step. Time is the logarithm of their
    /// number.
    pub fn past(&self, thread: u8, step: u64, from: u64) -> u64
        requires marks { HasMarks self.now }
        requires step { step < 2 ^ 54 }
        ensures least { (boxes : List PlacedBox) (spans : List Span) → HoldsMarks boxes spans self.now → IsLeastAbove from (MarkedBefore boxes spans thread step) result }
        ensures near { result ≤ max (2 ^ 54) from }
    {
        let top = self.right.before(number_in(thread, step));
        top.saturating_sub(number_in(thread, 0)).max(from)
    }

    /// The least u from `from` on to which a thread comes by this step from where its boxes start or end before. Time is the logarithm of their
    /// number.
    pub fn come(&self, thread: u8, step: u64, from: u64) -> u64
        requires marks { HasMarks self.now }
        requires step { step < 2 ^ 54 }
        ensures { (boxes : List PlacedBox) (spans : List Span) → HoldsMarks boxes spans self.now → IsLeastFrom from (ComesFrom boxes spans thread step) result }
    {
        let top = self.late.before(number_in(thread, step));
        let late = top.saturating_sub(number_in(thread, 0));
        if late == 0 {
            return from;
        }
        (step + (late - 1)).max(from)
    }
}
