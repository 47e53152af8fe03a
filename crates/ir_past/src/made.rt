//! The write entries of a trace.

ghost use Rattle.std.specs.Prelude.{◌+◌, ◌<◌, length, OnOk, IfOk};
ghost use Rattle.ir_trace.specs.Recorded.{recorded_thread};
ghost use Rattle.ir_trace.specs.Bounds.{IsRecorded};
ghost use Rattle.ir_past.specs.Progress.{Makes};

use crate::logs::{events_of, thread_count};
use crate::makers::Makers;
use crate::place::Place;
use ir_log::Event;
use ir_trace::Trace;
use std::alloc::{AllocError, Global};

// Notes an event, if it is a write entry.
fn note_event(makers: &mut Makers, trace: &Trace, here: Place) -> Result<(), AllocError>
    requires thread { here.thread < length trace.now.threads }
    requires event { here.event < length (recorded_thread trace.now here.thread).events }
    requires makes { Makes trace.now here.thread here.event makers.old }
    ensures { OnOk result (Makes trace.now here.thread (here.event + 1) makers.new) }
{
    let events = events_of(trace, here.thread);
    match events[here.event as usize] {
        Event::Answer(..) => Ok(()),
        Event::Read { .. } => Ok(()),
        Event::Try { .. } => Ok(()),
        Event::Write {
            object,
            version,
            ..
        } => makers.note(object, version, here),
    }
}

// Notes the write entries of a thread.
#[tactic(auto, using(crate::proofs::Noted::makes_next_thread))]
fn note_thread(makers: &mut Makers, trace: &Trace, thread: u8) -> Result<(), AllocError>
    requires thread { thread < length trace.now.threads }
    requires makes { Makes trace.now thread 0 makers.old }
    ensures { OnOk result (Makes trace.now (thread + 1) 0 makers.new) }
{
    for event in 0..events_of(trace, thread).len() as u32 {
        note_event(makers, trace, Place { thread, event })?;
    }
    Ok(())
}

/// The write entries of a trace, each by its object and version. Time and memory are linear in the events.
///
/// # Errors
/// Out of memory.
pub fn makers_of(alloc: Global, trace: &Trace) -> Result<Makers, AllocError>
    ensures makes { IfOk result (Makes trace.now (length trace.now.threads) 0) }
    ensures recorded { OnOk result (IsRecorded trace.now) }
{
    let mut makers = Makers::new(alloc, trace.objects())?;
    for thread in 0..thread_count(trace) {
        note_thread(&mut makers, trace, thread)?;
    }
    Ok(makers)
}
