//! The read entries of a version.

ghost use Rattle.std.specs.Prelude.{◌≡◌, ◌+◌, ◌<◌, true, false, length, IfOk, OnOk};
ghost use Rattle.ir_log.specs.declared.event.Event.TheVariants.{Read};
ghost use Rattle.ir_trace.specs.Recorded.{recorded_thread};
ghost use Rattle.ir_past.specs.Past.{AreReaders};
ghost use Rattle.ir_past.specs.Progress.{ReadBefore};

use crate::logs::{events_of, thread_count};
use crate::place::Place;
use ir_log::Event;
use ir_trace::Trace;
use std::alloc::{AllocError, Global};

// Whether an event reads an object at a version.
fn is_read(event: Event, object: u8, version: u32) -> bool
    ensures set { result ≡ true → event ≡ Read object version }
    ensures clear { result ≡ false → event ≡ Read object version → ⊥ }
{
    match event {
        Event::Read {
            object: read,
            version: found,
        } => read == object && found == version,
        Event::Answer(..) | Event::Write { .. } | Event::Try { .. } => false,
    }
}

// Adds an event, if it reads an object at a version.
fn add_event(
    places: &mut Vec<Place>,
    trace: &Trace,
    object: u8,
    version: u32,
    here: Place,
) -> Result<(), AllocError>
    requires thread { here.thread < length trace.now.threads }
    requires event { here.event < length (recorded_thread trace.now here.thread).events }
    requires before { ReadBefore trace.now object version here.thread here.event places.old.items }
    ensures { OnOk result (ReadBefore trace.now object version here.thread (here.event + 1) places.new.items) }
{
    let events = events_of(trace, here.thread);
    if is_read(events[here.event as usize], object, version) {
        places.push(here)?;
    }
    Ok(())
}

// Adds the events of a thread.
fn add_thread(
    places: &mut Vec<Place>,
    trace: &Trace,
    object: u8,
    version: u32,
    thread: u8,
) -> Result<(), AllocError>
    requires thread { thread < length trace.now.threads }
    requires before { ReadBefore trace.now object version thread 0 places.old.items }
    ensures { OnOk result (ReadBefore trace.now object version (thread + 1) 0 places.new.items) }
{
    for event in 0..events_of(trace, thread).len() as u32 {
        add_event(places, trace, object, version, Place { thread, event })?;
    }
    Ok(())
}

/// The read entries of an object at a version, by rising thread and then by event. Time is linear in the events of the trace.
///
/// # Errors
/// Out of memory.
pub fn readers_of(
    alloc: Global,
    trace: &Trace,
    object: u8,
    version: u32,
) -> Result<Vec<Place>, AllocError>
    ensures { IfOk result (λ places. AreReaders trace.now object version places.items) }
{
    let mut places = Vec::new(alloc);
    for thread in 0..thread_count(trace) {
        add_thread(&mut places, trace, object, version, thread)?;
    }
    Ok(places)
}
