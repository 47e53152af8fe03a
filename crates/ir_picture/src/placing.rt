//! The places of boxes.

ghost use Rattle.std.specs.Prelude.{◌≡◌, ℕ, ◌+◌, ◌*◌, ◌^◌, ◌<◌, ◌≤◌, Some, IfSome, IfNone, map, length, vec_len, OnOk, IfOk, MatchOption};
ghost use Rattle.std.specs.List.{slice_get};
ghost use Rattle.ir_thread.specs.State.{most_events};
ghost use Rattle.ir_past.specs.Past.{event_at};
ghost use Rattle.ir_past.specs.Answers.{AreCoherent};
ghost use Rattle.ir_picture.specs.Needs.{IsCircleAt};
ghost use Rattle.ir_picture.specs.Boxes.{IsBox};
ghost use Rattle.ir_picture.specs.Boxing.{AreBoxesApart};
ghost use Rattle.ir_picture.specs.Places.{length_of};
ghost use Rattle.ir_picture.specs.Placing.{first_point, box_at, right_of, IsPlacingCut, IsPlacing, IsPlaceable, IsWaitingBox, IsStuck, IsOverBox, boxes_left, events_of_all};
ghost use Rattle.ir_picture.specs.declared.placed_box.PlacedBox.{PlacedBox};
ghost use Rattle.ir_picture.specs.declared.placing.Lane.{Lane};

use crate::boxes::boxes_of;
use crate::circle::Circle;
use crate::event_box::EventBox;
use crate::placed_box::{PlacedBox, Point};
use crate::table::{Table, later};
use crate::threads::events_in;
use ir_log::Event;
use ir_past::{Place, event_of, thread_count};
use ir_trace::Trace;
use std::alloc::{AllocError, Global};

/// How far a thread is placed.
#[derive(Clone, Copy, Debug, PartialEq, Eq)]
pub struct Lane {
    // Its next box, by its number among all.
    next: usize,
    // The first place after its boxes that are placed.
    free: Point,
}

/// A thread whose next box can be placed.
#[derive(Clone, Copy, Debug, PartialEq, Eq)]
pub struct Ready {
    // The thread.
    thread: u8,
    // The first place after all that the box needs.
    needed: Point,
}

/// Boxes that are being placed.
#[derive(Drop)]
pub struct Placing {
    boxes: Vec<PlacedBox>,
    lanes: Vec<Lane>,
    table: Table,
}

// A box that isn't placed.
fn unplaced(events: EventBox) -> PlacedBox
    ensures { result.events ≡ events }
{
    let nowhere = Point { x: 0, u: 0 };
    PlacedBox {
        events,
        start: nowhere,
        end: nowhere,
        came: 0,
        row: 0,
    }
}

// These boxes, none of which is placed.
fn unplaced_all(alloc: Global, events: &[EventBox]) -> Result<Vec<PlacedBox>, AllocError>
    ensures { IfOk result (λ v. events_of_all v.items ≡ events.now) }
{
    let mut boxes = Vec::new(alloc);
    for own in events {
        boxes.push(unplaced(*own))?;
    }
    Ok(boxes)
}

/// How long a box with this first event is in x.
pub fn length_of(event: Event) -> u64
    ensures { result ≡ length_of event }
{
    match event {
        Event::Answer(..) => 0,
        Event::Read { .. } | Event::Write { .. } | Event::Try { .. } => 1,
    }
}

// A box with these events, the first of which is this one, where its thread is free from one place on, and what it needs is before another.
fn placed_box(events: EventBox, first: Event, free: Point, needed: Point) -> PlacedBox
    requires free { free.x < 2 ^ 60 }
    requires needed { needed.x < 2 ^ 60 }
    ensures { result ≡ box_at events first free needed }
{
    let start = later(free, needed);
    PlacedBox {
        events,
        start,
        end: Point {
            x: start.x + length_of(first),
            u: start.u,
        },
        came: free.u,
        row: 0,
    }
}

/// The first place right of an end.
pub fn right_of(end: Point) -> Point
    requires x { end.x < 2 ^ 62 }
    requires u { end.u < 2 ^ 62 }
    ensures { result ≡ right_of end }
{
    Point {
        x: end.x + 1,
        u: end.u + 1,
    }
}

// How many boxes there are of the threads before this one.
fn boxes_before(boxes: &[EventBox], thread: u8) -> usize
    requires { AreBoxesApart boxes.now }
    ensures { IsPlacingCut boxes.now thread 0 result }
{
    boxes.partition_point(|own| own.thread < thread)
}

// The lanes of a trace whose boxes these are, with no box placed.
fn lanes_of(alloc: Global, threads: u8, boxes: &[EventBox]) -> Result<Vec<Lane>, AllocError>
    requires { AreBoxesApart boxes.now }
    ensures lanes { IfOk result (λ v. length v.items ≡ threads) }
    ensures at { IfOk result (λ v. (t : ℕ) (l : Lane) → slice_get v.items t ≡ Some l → (l.free ≡ first_point) × IsPlacingCut boxes.now t 0 l.next) }
{
    let free = Point { x: 0, u: 1 };
    let mut lanes = Vec::new(alloc);
    for thread in 0..threads {
        let next = boxes_before(boxes, thread);
        lanes.push(Lane { next, free })?;
    }
    Ok(lanes)
}

// The first event of a box.
fn first_of(trace: &Trace, own: &EventBox) -> Event
    requires { IsBox trace.now own.now }
    ensures { event_at trace.now own.now.thread own.now.event ≡ Some result }
{
    let EventBox { thread, event, .. } = *own;
    event_of(trace, Place { thread, event })
}

// The events of the box of this number, if it is of this thread.
fn next_of(boxes: &[PlacedBox], number: usize, thread: u8) -> Option<EventBox>
    ensures found { IfSome result (λ e. (b : PlacedBox) × (slice_get boxes.now number ≡ Some b) × (b.events ≡ e) × (b.events.thread ≡ thread)) }
    ensures none { IfNone result ((b : PlacedBox) → slice_get boxes.now number ≡ Some b → b.events.thread ≡ thread → ⊥) }
{
    match boxes.get(number) {
        Some(own) if own.events.thread == thread => Some(own.events),
        _ => None,
    }
}

impl Placing {
    /// The boxes of a trace, of which none is placed.
    ///
    /// # Errors
    /// Out of memory.
    pub fn new(alloc: Global, trace: &Trace) -> Result<Placing, AllocError>
        ensures { IfOk result (λ p. IsPlacing trace.now p) }
    {
        let events = boxes_of(alloc, trace)?;
        let lanes = lanes_of(alloc, thread_count(trace), &events)?;
        let boxes = unplaced_all(alloc, &events)?;
        let table = Table::new(alloc, trace.objects())?;
        Ok(Placing {
            boxes,
            lanes,
            table,
        })
    }

    // Places the next box of a thread that is ready.
    fn place(&mut self, trace: &Trace, ready: Ready) -> Result<(), AllocError>
        requires coherent { AreCoherent trace.now }
        requires placing { IsPlacing trace.now self.old }
        requires ready { IsPlaceable trace.now self.old ready.thread ready.needed }
        ensures placing { OnOk result (IsPlacing trace.now self.new) }
        ensures fewer { OnOk result (boxes_left self.new < boxes_left self.old) }
    {
        let lane = self.lanes[ready.thread as usize];
        let own = self.boxes[lane.next].events;
        let placed = placed_box(own, first_of(trace, &own), lane.free, ready.needed);
        let free = right_of(placed.end);
        self.boxes[lane.next] = placed;
        self.lanes[ready.thread as usize] = Lane {
            next: lane.next + 1,
            free,
        };
        self.table.note_all(events_in(trace, &own), free)
    }

    // The first place after all that the next box of a thread needs, if there is one, and all that is placed.
    fn needed(&self, trace: &Trace, thread: u8) -> Option<Point>
        requires placing { IsPlacing trace.now self.now }
        requires thread { thread < length trace.now.threads }
        ensures ready { IfSome result (λ p. IsPlaceable trace.now self.now thread p) }
        ensures waits { IfNone result (IsWaitingBox trace.now self.now thread) }
    {
        let lane = self.lanes[thread as usize];
        match next_of(&self.boxes, lane.next, thread) {
            None => None,
            Some(own) => self.table.place_after_needs(first_of(trace, &own)),
        }
    }

    // The first thread whose next box can be placed.
    fn first_ready(&self, trace: &Trace) -> Option<Ready>
        requires { IsPlacing trace.now self.now }
        ensures ready { IfSome result (λ x. IsPlaceable trace.now self.now x.thread x.needed) }
        ensures waits { IfNone result ((t : ℕ) → IsWaitingBox trace.now self.now t) }
    {
        for thread in 0..thread_count(trace) {
            if let Some(needed) = self.needed(trace, thread) {
                return Some(Ready { thread, needed });
            }
        }
        None
    }

    // Places the boxes of a thread that is ready up to the first that can't be placed.
    fn advance(&mut self, trace: &Trace, ready: Ready) -> Result<(), AllocError>
        requires coherent { AreCoherent trace.now }
        requires placing { IsPlacing trace.now self.old }
        requires thread { ready.thread < length trace.now.threads }
        requires ready { IsPlaceable trace.now self.old ready.thread ready.needed }
        ensures placing { OnOk result (IsPlacing trace.now self.new) }
        ensures fewer { OnOk result (boxes_left self.new < boxes_left self.old) }
    {
        let thread = ready.thread;
        self.place(trace, ready)?;
        'boxes: while let Some(needed) = self.needed(trace, thread) {
            self.place(trace, Ready { thread, needed })?;
        }
        Ok(())
    }

    /// Places all boxes that can be placed, each after all that it needs. Time is linear in the events, times the threads.
    ///
    /// # Errors
    /// Out of memory.
    pub fn place_all(&mut self, trace: &Trace) -> Result<(), AllocError>
        requires coherent { AreCoherent trace.now }
        requires placing { IsPlacing trace.now self.old }
        ensures { OnOk result (IsStuck trace.now self.new) }
    {
        'lanes: while let Some(ready) = self.first_ready(trace) {
            self.advance(trace, ready)?;
        }
        Ok(())
    }

    /// The next event of the first thread that has a box left.
    pub fn circle(&self, trace: &Trace) -> Option<Circle>
        requires coherent { AreCoherent trace.now }
        requires stuck { IsStuck trace.now self.now }
        ensures { MatchOption result ((t : ℕ) → IsOverBox self.now t) (λ c. IsCircleAt trace.now c.thread c.event) }
    {
        for thread in 0..thread_count(trace) {
            let lane = self.lanes[thread as usize];
            if let Some(own) = next_of(&self.boxes, lane.next, thread) {
                return Some(Circle {
                    thread: own.thread,
                    event: own.event,
                });
            }
        }
        None
    }

    /// The boxes.
    pub fn boxes(&self) -> &[PlacedBox]
        ensures { result.now ≡ self.now.boxes.items }
    {
        &self.boxes
    }

    /// Where each thread ends.
    ///
    /// # Errors
    /// Out of memory.
    pub fn ends(&self, alloc: Global) -> Result<Vec<Point>, AllocError>
        ensures { IfOk result (λ v. v.items ≡ map (λ (l : Lane). l.free) self.now.lanes.items) }
    {
        let mut ends = Vec::new(alloc);
        for lane in &self.lanes {
            ends.push(lane.free)?;
        }
        Ok(ends)
    }
}
