//! Whether a thread is ready where the common part ends.

ghost use Rattle.std.specs.Prelude.{◌≡◌, ◌≢◌, ◌<◌, ℕ, length, IfOk};
ghost use Rattle.ir_trace.specs.Recorded.{Recorded};
ghost use Rattle.ir_diff.specs.Common.{Tells, HasOthersMaker, HasOthersReaders, HasNeeds, IsThreadReady};
ghost use Rattle.ir_diff.specs.Progress.{counts_of_part, AreMakersOf};

use crate::counted::{is_counted, next_event};
use ir_log::Event;
use ir_past::{Makers, Place, readers_of};
use ir_trace::Trace;
use std::alloc::{AllocError, Global};

// Whether an event is of this thread, or among the first events.
fn is_there(part: &[u32], thread: u8, place: Place) -> bool
    ensures { Tells result (place.thread ≢ thread → place.event < counts_of_part part.now place.thread) }
{
    place.thread == thread || is_counted(part, place)
}

// Whether what made a version is there.
fn has_maker(makers: &Makers, part: &[u32], thread: u8, object: u8, version: u32) -> bool
    ensures { (r : Recorded) → AreMakersOf r makers.now → Tells result (HasOthersMaker r (counts_of_part part.now) thread object version) }
{
    if version == 0 {
        return true;
    }
    match makers.get(object, version - 1) {
        Some(place) => is_there(part, thread, place),
        None => true,
    }
}

// Whether all read entries of a version are there.
fn has_readers(
    alloc: Global,
    trace: &Trace,
    part: &[u32],
    thread: u8,
    object: u8,
    version: u32,
) -> Result<bool, AllocError>
    ensures { IfOk result (λ there. Tells there (HasOthersReaders trace.now (counts_of_part part.now) thread object version)) }
{
    let readers = readers_of(alloc, trace, object, version)?;
    for place in &readers {
        if !is_there(part, thread, *place) {
            return Ok(false);
        }
    }
    Ok(true)
}

// Whether all that an event of a thread needs of other threads is there.
fn has_needs(
    alloc: Global,
    trace: &Trace,
    makers: &Makers,
    part: &[u32],
    thread: u8,
    event: Event,
) -> Result<bool, AllocError>
    requires { AreMakersOf trace.now makers.now }
    ensures { IfOk result (λ there. Tells there (HasNeeds trace.now (counts_of_part part.now) thread event)) }
{
    match event {
        Event::Answer(..) => Ok(true),
        Event::Try { .. } => Ok(true),
        Event::Read { object, version } => Ok(has_maker(makers, part, thread, object, version)),
        Event::Write {
            object,
            version,
            ..
        } => {
            if has_maker(makers, part, thread, object, version) {
                has_readers(alloc, trace, part, thread, object, version)
            } else {
                Ok(false)
            }
        }
    }
}

/// Whether all that the next event of a thread needs of other threads is among the first events of each thread that `part` counts. A thread
/// without a next event is ready.
///
/// # Errors
/// Out of memory.
pub fn is_ready(
    alloc: Global,
    trace: &Trace,
    makers: &Makers,
    part: &[u32],
    thread: u8,
) -> Result<bool, AllocError>
    requires thread { thread < length trace.now.threads }
    requires size { thread < length part.now }
    requires makers { AreMakersOf trace.now makers.now }
    ensures { IfOk result (λ ready. Tells ready (IsThreadReady trace.now (counts_of_part part.now) thread)) }
{
    match next_event(trace, part, thread as usize) {
        None => Ok(true),
        Some(event) => has_needs(alloc, trace, makers, part, thread, event),
    }
}
