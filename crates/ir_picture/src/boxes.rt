//! The events of a trace in boxes.

ghost use Rattle.std.specs.Prelude.{◌≡◌, ◌+◌, ◌*◌, ◌<◌, ◌≤◌, true, false, length, vec_len, OnOk, IfOk};
ghost use Rattle.ir_thread.specs.State.{most_events};
ghost use Rattle.ir_trace.specs.Recorded.{recorded_thread};
ghost use Rattle.ir_trace.specs.Bounds.{IsRecorded};
ghost use Rattle.ir_picture.specs.Boxes.{AreBoxes};
ghost use Rattle.ir_picture.specs.Boxing.{Notes, IsFold, BoxedBefore};

use crate::event_box::EventBox;
use crate::repeats::{Habits, Repeat, are_alike};
use ir_past::{Place, events_of, thread_count};
use ir_trace::Trace;
use std::alloc::{AllocError, Global};

// Adds an event of a thread: to the last box where both repeat something of one kind, else as a box of its own.
fn add_event(
    boxes: &mut Vec<EventBox>,
    trace: &Trace,
    folds: bool,
    here: Place,
) -> Result<(), AllocError>
    requires thread { here.thread < length trace.now.threads }
    requires event { here.event < length (recorded_thread trace.now here.thread).events }
    requires few { length (recorded_thread trace.now here.thread).events ≤ most_events }
    requires folds { IsFold (recorded_thread trace.now here.thread).events here.event folds }
    requires boxed { BoxedBefore trace.now here.thread here.event boxes.old.items }
    ensures { OnOk result (BoxedBefore trace.now here.thread (here.event + 1) boxes.new.items) }
{
    if folds {
        let last = boxes.len() - 1;
        let own = boxes[last];
        boxes[last] = EventBox {
            count: own.count + 1,
            ..own
        };
        return Ok(());
    }
    boxes.push(EventBox {
        thread: here.thread,
        event: here.event,
        count: 1,
    })?;
    Ok(())
}

// Adds the events of a thread.
fn add_thread(
    boxes: &mut Vec<EventBox>,
    trace: &Trace,
    habits: Habits,
    thread: u8,
) -> Result<(), AllocError>
    requires thread { thread < length trace.now.threads }
    requires objects { vec_len habits.read ≡ trace.now.objects }
    requires notes { Notes (recorded_thread trace.now thread).events 0 habits }
    requires boxed { BoxedBefore trace.now thread 0 boxes.old.items }
    ensures { OnOk result (BoxedBefore trace.now (thread + 1) 0 boxes.new.items) }
{
    let mut habits = habits;
    let mut before = Repeat::Nothing;
    let events = events_of(trace, thread);
    for event in 0..events.len() as u32 {
        let repeat = habits.note(events, event as usize);
        let folds = are_alike(before, repeat);
        add_event(boxes, trace, folds, Place { thread, event })?;
        before = repeat;
    }
    Ok(())
}

/// The boxes of a trace, by rising thread and event: repeats of one kind that follow each other are in one box, each other event has one of its own.
/// Time and memory are linear in the events.
///
/// # Errors
/// Out of memory.
pub fn boxes_of(alloc: Global, trace: &Trace) -> Result<Vec<EventBox>, AllocError>
    ensures boxes { IfOk result (λ boxes. AreBoxes trace.now boxes.items) }
    ensures few { IfOk result (λ boxes. length boxes.items ≤ length trace.now.threads * most_events) }
    ensures recorded { OnOk result (IsRecorded trace.now) }
{
    let objects = trace.objects();
    let mut boxes = Vec::new(alloc);
    for thread in 0..thread_count(trace) {
        let habits = Habits::new(alloc, objects)?;
        add_thread(&mut boxes, trace, habits, thread)?;
    }
    Ok(boxes)
}
