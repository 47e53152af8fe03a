//! The events of a run in boxes.

ghost use Rattle.std.specs.Prelude.{◌≡◌, ◌+◌, ◌<◌, ◌≤◌, true, false, length, vec_len, OnOk, IfOk};
ghost use Rattle.ir_thread.specs.State.{most_events};
ghost use Rattle.ir_trace.specs.Recorded.{recorded_thread};
ghost use Rattle.ir_opened.specs.Positions.{IsInside};
ghost use Rattle.ir_picture.specs.Boxing.{Notes, IsFold};
ghost use Rattle.ir_run_picture.specs.Brief.{AreRunBoxes};
ghost use Rattle.ir_run_picture.specs.Boxing.{IsFoldIn, RunBoxedBefore};

use crate::brief::is_brief;
use ir_fit::Fitted;
use ir_past::{Place, events_of, thread_count};
use ir_picture::{EventBox, Habits, Repeat, are_alike};
use std::alloc::{AllocError, Global};

// Whether an event is in one box with the event before it: if both repeat something of one kind, and nothing is held over another event.
fn folds_in(fitted: &Fitted, folds: bool, here: Place) -> bool
    requires inside { IsInside fitted.now here.thread here.event }
    requires folds { IsFold (recorded_thread fitted.now.recorded here.thread).events here.event folds }
    ensures { IsFoldIn fitted.now here.thread here.event result }
{
    if !folds {
        return false;
    }
    let before = Place {
        thread: here.thread,
        event: here.event - 1,
    };
    is_brief(fitted, before) && is_brief(fitted, here)
}

// Adds an event of a thread: to the last box where both are folded, else as a box of its own.
fn add_event(
    boxes: &mut Vec<EventBox>,
    fitted: &Fitted,
    folds: bool,
    here: Place,
) -> Result<(), AllocError>
    requires thread { here.thread < length fitted.now.recorded.threads }
    requires event { here.event < length (recorded_thread fitted.now.recorded here.thread).events }
    requires few { length (recorded_thread fitted.now.recorded here.thread).events ≤ most_events }
    requires folds { IsFoldIn fitted.now here.thread here.event folds }
    requires boxed { RunBoxedBefore fitted.now here.thread here.event boxes.old.items }
    ensures { OnOk result (RunBoxedBefore fitted.now here.thread (here.event + 1) boxes.new.items) }
{
    if folds {
        let last = boxes.len() - 1;
        let own = boxes[last];
        boxes[last] = EventBox {
            count: own.count + 1,
            ..own
        };
        return Ok(());
    }
    boxes.push(EventBox {
        thread: here.thread,
        event: here.event,
        count: 1,
    })?;
    Ok(())
}

// Adds the events of a thread.
fn add_thread(
    boxes: &mut Vec<EventBox>,
    fitted: &Fitted,
    habits: Habits,
    thread: u8,
) -> Result<(), AllocError>
    requires thread { thread < length fitted.now.recorded.threads }
    requires objects { vec_len habits.read ≡ fitted.now.recorded.objects }
    requires notes { Notes (recorded_thread fitted.now.recorded thread).events 0 habits }
    requires boxed { RunBoxedBefore fitted.now thread 0 boxes.old.items }
    ensures { OnOk result (RunBoxedBefore fitted.now (thread + 1) 0 boxes.new.items) }
{
    fitted.known();
    let mut habits = habits;
    let mut before = Repeat::Nothing;
    let events = events_of(fitted.trace(), thread);
    for event in 0..events.len() as u32 {
        let repeat = habits.note(events, event as usize);
        let here = Place { thread, event };
        let folds = folds_in(fitted, are_alike(before, repeat), here);
        add_event(boxes, fitted, folds, here)?;
        before = repeat;
    }
    Ok(())
}

/// The boxes of a run, by rising thread and event: repeats of one kind that follow each other are in one box where nothing is held over another
/// event, and each other event has a box of its own. Time is linear in the events, and for each repeat in the leaves of its thread behind it.
///
/// # Errors
/// Out of memory.
pub fn run_boxes_of(alloc: Global, fitted: &Fitted) -> Result<Vec<EventBox>, AllocError>
    ensures { IfOk result (λ boxes. AreRunBoxes fitted.now boxes.items) }
{
    let trace = fitted.trace();
    let objects = trace.objects();
    let mut boxes = Vec::new(alloc);
    for thread in 0..thread_count(trace) {
        let habits = Habits::new(alloc, objects)?;
        add_thread(&mut boxes, fitted, habits, thread)?;
    }
    Ok(boxes)
}
