//! Places that are proposed for boxes: each start and end behind what comes before it.

use crate::known::Known;
use crate::moments::{Moment, moments_of};
use crate::span::Span;
use crate::spot::{NOT_PLACED, Spot};
use ir_log::Event;
use ir_picture::{EventBox, Point, later, length_of};
use ir_trace::Trace;
use std::alloc::{AllocError, Global};

// How far a thread has come.
#[derive(Clone, Copy, Debug, PartialEq, Eq)]
struct Lane {
    // The number of its next moment.
    next: usize,
    // The first x behind its moments before.
    free: u64,
    // How much further it is by u than by its steps.
    late: u64,
}

// What places are proposed from.
#[derive(Clone, Copy)]
struct Given<'a> {
    trace: &'a Trace,
    boxes: &'a [EventBox],
    spans: &'a [Span],
    moments: &'a [Moment],
}

// Places that are being proposed.
#[derive(Drop)]
struct Proposing {
    spots: Vec<Spot>,
    lanes: Vec<Lane>,
    known: Known,
}

// The events of a box, if the trace has them.
fn events_of_box<'a>(trace: &'a Trace, own: &EventBox) -> Option<&'a [Event]> {
    let thread = trace.threads().get(own.thread as usize)?;
    let first = own.event as usize;
    let end = first.saturating_add(own.count as usize);
    thread.log().events().get(first..end)
}

// The first place right of an end.
fn behind(end: Point) -> Point {
    Point {
        x: end.x.saturating_add(1),
        u: end.u.saturating_add(1),
    }
}

// The spot of a box that starts now, where what it needs ends left of a place. What goes no further than its first step ends there too.
fn started(lane: Lane, moment: &Moment, span: &Span, needed: Point, long: u64) -> Spot {
    let came = moment.step.saturating_add(lane.late);
    let start = later(
        Point {
            x: lane.free,
            u: came,
        },
        needed,
    );
    let end = Point {
        x: start.x.saturating_add(long),
        u: start.u.saturating_add(span.last.saturating_sub(span.first)),
    };
    Spot { start, end, came }
}

// The spot of a box that ends now.
fn ended(lane: Lane, moment: &Moment, span: &Span, spot: Spot) -> Spot {
    if span.first == span.last {
        return spot;
    }
    let end = Point {
        x: spot.end.x.max(lane.free),
        u: moment.step.saturating_add(lane.late),
    };
    Spot { end, ..spot }
}

// A thread behind a moment at a place.
fn lane_behind(lane: Lane, moment: &Moment, place: Point) -> Lane {
    Lane {
        next: lane.next.saturating_add(1),
        free: lane.free.max(place.x.saturating_add(1)),
        late: lane.late.max(place.u.saturating_sub(moment.step)),
    }
}

impl Proposing {
    // No box has a place.
    fn new(alloc: Global, given: Given<'_>) -> Result<Proposing, AllocError> {
        let threads = given.trace.threads().len();
        let mut lanes = Vec::with_capacity(alloc, threads)?;
        for thread in 0..threads {
            let next = given
                .moments
                .partition_point(|moment| (moment.thread as usize) < thread);
            lanes.push(Lane {
                next,
                free: 0,
                late: 1,
            })?;
        }
        let mut spots = Vec::new(alloc);
        spots.resize(given.spans.len(), NOT_PLACED)?;
        let known = Known::new(alloc, given.trace.objects())?;
        Ok(Proposing {
            spots,
            lanes,
            known,
        })
    }

    // The spot of the box of a thread's next moment, if what it needs has its place.
    fn spot_at(&self, given: Given<'_>, lane: Lane, moment: &Moment) -> Option<Spot> {
        let span = given.spans.get(moment.number)?;
        if moment.ends {
            let spot = self.spots.get(moment.number)?;
            return Some(ended(lane, moment, span, *spot));
        }
        let own = given.boxes.get(moment.number)?;
        let first = *events_of_box(given.trace, own)?.first()?;
        let needed = self.known.after_needs(first)?;
        Some(started(lane, moment, span, needed, length_of(first)))
    }

    // Notes that the box of a number ends at a place.
    fn note(&mut self, given: Given<'_>, number: usize, end: Point) -> Result<(), AllocError> {
        let Some(own) = given.boxes.get(number) else {
            return Ok(());
        };
        match events_of_box(given.trace, own) {
            Some(events) => self.known.note_all(events, behind(end)),
            None => Ok(()),
        }
    }

    // Puts a box and a thread where they are behind a moment.
    fn put(
        &mut self,
        given: Given<'_>,
        moment: &Moment,
        lane: Lane,
        spot: Spot,
    ) -> Result<(), AllocError> {
        let place = if moment.ends { spot.end } else { spot.start };
        if let Some(own) = self.lanes.get_mut(moment.thread as usize) {
            *own = lane_behind(lane, moment, place);
        }
        if let Some(own) = self.spots.get_mut(moment.number) {
            *own = spot;
        }
        if moment.ends {
            self.note(given, moment.number, spot.end)?;
        }
        Ok(())
    }

    // Gives a thread's next moment its place, if that can be; whether it could.
    fn step(&mut self, given: Given<'_>, thread: usize) -> Result<bool, AllocError> {
        let Some(lane) = self.lanes.get(thread).copied() else {
            return Ok(false);
        };
        let Some(moment) = given.moments.get(lane.next) else {
            return Ok(false);
        };
        if moment.thread as usize != thread {
            return Ok(false);
        }
        let Some(spot) = self.spot_at(given, lane, moment) else {
            return Ok(false);
        };
        self.put(given, moment, lane, spot)?;
        Ok(true)
    }

    // Gives a thread's moments their places up to the first that can't have one; whether one had.
    fn advance(&mut self, given: Given<'_>, thread: usize) -> Result<bool, AllocError> {
        let mut moved = false;
        for _ in 0..given.moments.len() {
            if !self.step(given, thread)? {
                return Ok(moved);
            }
            moved = true;
        }
        Ok(moved)
    }

    // The same for each thread.
    fn round(&mut self, given: Given<'_>) -> Result<bool, AllocError> {
        let mut moved = false;
        for thread in 0..self.lanes.len() {
            if self.advance(given, thread)? {
                moved = true;
            }
        }
        Ok(moved)
    }

    // The same until no thread can go on.
    fn go(&mut self, given: Given<'_>) -> Result<(), AllocError> {
        for _ in 0..given.moments.len() {
            if !self.round(given)? {
                return Ok(());
            }
        }
        Ok(())
    }
}

/// Places for boxes of a trace, which go so. Nothing is said of them: whoever takes them looks at each, and puts those right that are wrong. Time is
/// linear in the events, times the threads, times the logarithm of the boxes.
///
/// # Errors
/// Out of memory.
pub fn proposed(
    alloc: Global,
    trace: &Trace,
    boxes: &[EventBox],
    spans: &[Span],
) -> Result<Vec<Spot>, AllocError> {
    let moments = moments_of(alloc, spans)?;
    let given = Given {
        trace,
        boxes,
        spans,
        moments: &moments,
    };
    let mut proposing = Proposing::new(alloc, given)?;
    proposing.go(given)?;
    let Proposing { spots, .. } = proposing;
    Ok(spots)
}
