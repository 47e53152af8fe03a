//! The events that a common part counts, and those after them.

ghost use Rattle.std.specs.Prelude.{◌≡◌, ◌<◌, length, OnSome};
ghost use Rattle.ir_thread.specs.State.{most_events};
ghost use Rattle.ir_past.specs.Past.{event_at};
ghost use Rattle.ir_diff.specs.Common.{Tells};
ghost use Rattle.ir_diff.specs.Progress.{counts_of_part};

use ir_log::Event;
use ir_past::Place;
use ir_trace::Trace;

/// Whether an event is among the first events of its thread that `part` counts.
pub fn is_counted(part: &[u32], place: Place) -> bool
    ensures { Tells result (place.event < counts_of_part part.now place.thread) }
{
    match part.get(place.thread as usize) {
        Some(count) => place.event < *count,
        None => false,
    }
}

/// The event of a thread after those that `part` counts, if there is one.
pub fn next_event(trace: &Trace, part: &[u32], thread: usize) -> Option<Event>
    requires thread { thread < length trace.now.threads }
    requires size { thread < length part.now }
    ensures next { result ≡ event_at trace.now thread (counts_of_part part.now thread) }
    ensures few { OnSome result (counts_of_part part.now thread < most_events) }
{
    let next = part[thread] as usize;
    match trace.threads()[thread].log().events().get(next) {
        Some(event) => Some(*event),
        None => None,
    }
}
