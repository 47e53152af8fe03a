//! Where the boxes end that have what an event needs.

ghost use Rattle.std.specs.Prelude.{◌≡◌, ◌+◌, ◌^◌, ◌<◌, ◌≤◌, ℕ, List, Some, length, vec_len, OnOk, IfOk};
ghost use Rattle.std.specs.List.{slice_get};
ghost use Rattle.ir_trace.specs.Recorded.{Recorded};
ghost use Rattle.ir_past.specs.Past.{entered};
ghost use Rattle.ir_picture.specs.Progress.{AreBoxesOf};
ghost use Rattle.ir_picture.specs.declared.placed_box.PlacedBox.{PlacedBox};
ghost use Rattle.ir_holds.specs.Needing.{MakesForNeed, NeedsLike, OneNeedsLike, IsAfterThese, HoldsEnds, HoldsTo, place_in, with_end, with_read, with_write};

use ir_log::Event;
use ir_past::events_of;
use ir_picture::{PlacedBox, Point, START, Table, Version, later, right_of};
use ir_trace::Trace;
use std::alloc::{AllocError, Global};

/// Of each object at each version the first place right of the boxes that enter it for writing, and of those that read it.
#[derive(Drop)]
pub struct Ends {
    made: Table,
    left: Table,
}

// Notes that a box ends before a place that has an entry of an object at a version.
fn put(table: &mut Table, object: u8, version: u32, after: Point) -> Result<(), AllocError>
    requires { object < vec_len table.old.objects }
    ensures objects { OnOk result (vec_len table.new.objects ≡ vec_len table.old.objects) }
    ensures noted { OnOk result ((o v : ℕ) → place_in table.new o v ≡ with_end object version after (place_in table.old) o v) }
{
    let known = table.get(object, version as usize);
    let more = Version {
        made: known.made,
        readers: known.readers,
        left: later(known.left, after),
    };
    table.set(object, version as usize, more)
}

impl Ends {
    // Notes that a box ends before a place that has an event.
    fn note(&mut self, event: Event, after: Point) -> Result<(), AllocError>
        requires made { (o : ℕ) → entered event ≡ Some o → o < vec_len self.old.made.objects }
        requires left { (o : ℕ) → entered event ≡ Some o → o < vec_len self.old.left.objects }
        ensures made_objects { OnOk result (vec_len self.new.made.objects ≡ vec_len self.old.made.objects) }
        ensures left_objects { OnOk result (vec_len self.new.left.objects ≡ vec_len self.old.left.objects) }
        ensures made { OnOk result ((o v : ℕ) → place_in self.new.made o v ≡ with_write event after (place_in self.old.made) o v) }
        ensures left { OnOk result ((o v : ℕ) → place_in self.new.left o v ≡ with_read event after (place_in self.old.left) o v) }
    {
        match event {
            Event::Answer(..) => Ok(()),
            Event::Try { .. } => Ok(()),
            Event::Read { object, version } => put(&mut self.left, object, version, after),
            Event::Write {
                object,
                version,
                ..
            } => put(&mut self.made, object, version, after),
        }
    }

    // Notes where the box of a number ends.
    fn note_box(
        &mut self,
        trace: &Trace,
        boxes: &[PlacedBox],
        number: usize,
    ) -> Result<(), AllocError>
        requires number { number < length boxes.now }
        requires boxes { AreBoxesOf trace.now boxes.now }
        requires small { (k : ℕ) (b : PlacedBox) → slice_get boxes.now k ≡ Some b → (b.end.x < 2 ^ 60) × (b.end.u < 2 ^ 60) }
        requires made { vec_len self.old.made.objects ≡ trace.now.objects }
        requires left { vec_len self.old.left.objects ≡ trace.now.objects }
        requires holds { HoldsTo trace.now boxes.now number 0 self.old }
        ensures made { OnOk result (vec_len self.new.made.objects ≡ trace.now.objects) }
        ensures left { OnOk result (vec_len self.new.left.objects ≡ trace.now.objects) }
        ensures holds { OnOk result (HoldsTo trace.now boxes.now (number + 1) 0 self.new) }
    {
        let own = boxes[number];
        let after = right_of(own.end);
        let events = events_of(trace, own.events.thread);
        for event in own.events.event..own.events.event + own.events.count {
            self.note(events[event as usize], after)?;
        }
        Ok(())
    }

    // Nothing, of this many objects.
    fn new(alloc: Global, objects: u8) -> Result<Ends, AllocError>
        ensures made { IfOk result (λ e. vec_len e.made.objects ≡ objects) }
        ensures left { IfOk result (λ e. vec_len e.left.objects ≡ objects) }
        ensures holds { IfOk result (λ e. (r : Recorded) (boxes : List PlacedBox) → HoldsTo r boxes 0 0 e) }
    {
        let made = Table::new(alloc, objects)?;
        let left = Table::new(alloc, objects)?;
        Ok(Ends { made, left })
    }

    // The first place right of the box that has what made a version of an object; the first place of all, if nothing made it.
    fn after_maker(&self, object: u8, version: u32) -> Point
        ensures { (r : Recorded) (boxes : List PlacedBox) → HoldsEnds r boxes self.now → IsAfterThese r boxes (MakesForNeed object version) result }
    {
        if version == 0 {
            return START;
        }
        let known = self.made.get(object, version as usize - 1);
        known.left
    }

    // The first place right of the boxes that have what an event needs.
    fn after_needs(&self, event: Event) -> Point
        ensures { (r : Recorded) (boxes : List PlacedBox) → HoldsEnds r boxes self.now → IsAfterThese r boxes (NeedsLike event) result }
    {
        match event {
            Event::Answer(..) => START,
            Event::Try { .. } => START,
            Event::Read { object, version } => self.after_maker(object, version),
            Event::Write {
                object,
                version,
                ..
            } => {
                let known = self.left.get(object, version as usize);
                later(self.after_maker(object, version), known.left)
            }
        }
    }

    /// The first place right of the boxes that have what one of these events needs.
    pub fn after_needs_of(&self, events: &[Event]) -> Point
        ensures { (r : Recorded) (boxes : List PlacedBox) → HoldsEnds r boxes self.now → IsAfterThese r boxes (OneNeedsLike events.now) result }
    {
        let mut place = START;
        for event in events {
            place = later(place, self.after_needs(*event));
        }
        place
    }
}

/// Where these boxes of a trace end, by what they enter. Time is linear in the events.
///
/// # Errors
/// Out of memory.
pub fn ends_of(alloc: Global, trace: &Trace, boxes: &[PlacedBox]) -> Result<Ends, AllocError>
    requires boxes { AreBoxesOf trace.now boxes.now }
    requires small { (k : ℕ) (b : PlacedBox) → slice_get boxes.now k ≡ Some b → (b.end.x < 2 ^ 60) × (b.end.u < 2 ^ 60) }
    ensures { IfOk result (HoldsEnds trace.now boxes.now) }
{
    let mut ends = Ends::new(alloc, trace.objects())?;
    for number in 0..boxes.len() {
        ends.note_box(trace, boxes, number)?;
    }
    Ok(ends)
}
