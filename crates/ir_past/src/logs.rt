//! The logs of a trace's threads.

ghost use Rattle.std.specs.Prelude.{◌≡◌, ◌<◌, ◌≤◌, length, Some};
ghost use Rattle.ir_thread.specs.State.{most_events};
ghost use Rattle.ir_trace.specs.Recorded.{recorded_thread};
ghost use Rattle.ir_past.specs.Past.{event_at};
ghost use Rattle.ir_past.specs.Progress.{FitsSoFar};

use crate::place::Place;
use ir_log::Event;
use ir_trace::Trace;

/// How many threads there are.
#[tactic(auto, using(ir_trace::proofs::CallerLemmas::recorded_threads_within))]
pub fn thread_count(trace: &Trace) -> u8
    ensures { result ≡ length trace.now.threads }
{
    trace.threads().len() as u8
}

/// What a thread logged, event by event.
pub fn events_of(trace: &Trace, thread: u8) -> &[Event]
    requires { thread < length trace.now.threads }
    ensures events { result.now ≡ (recorded_thread trace.now thread).events }
    ensures count { length result.now ≡ length (recorded_thread trace.now thread).events }
    ensures few { length result.now ≤ most_events }
    ensures fits { FitsSoFar result.now trace.now.objects }
{
    let threads = trace.threads();
    threads[thread as usize].log().events()
}

/// An event, by its thread and its place in the thread's log.
#[tactic(auto, using(crate::proofs::Open::slice_get_from_get_or))]
pub fn event_of(trace: &Trace, here: Place) -> Event
    requires thread { here.thread < length trace.now.threads }
    requires event { here.event < length (recorded_thread trace.now here.thread).events }
    ensures { event_at trace.now here.thread here.event ≡ Some result }
{
    events_of(trace, here.thread)[here.event as usize]
}
