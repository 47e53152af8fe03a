//! How many write entries a trace has.

ghost use Rattle.std.specs.Prelude.{◌≡◌, ◌≤◌, length};
ghost use Rattle.ir_thread.specs.State.{most_events};
ghost use Rattle.ir_past.specs.Past.{write_one, write_entries, write_count};

use ir_log::Event;
use ir_trace::Trace;

// 1 for a write entry, else 0.
fn write_one(event: Event) -> usize
    ensures value { result ≡ write_one event }
    ensures small { result ≤ 1 }
{
    match event {
        Event::Write { .. } => 1,
        Event::Answer(..) | Event::Read { .. } | Event::Try { .. } => 0,
    }
}

// How many write entries a log has.
fn writes_in(events: &[Event]) -> usize
    requires { length events.now ≤ most_events }
    ensures count { result ≡ write_entries events.now }
    ensures few { result ≤ length events.now }
{
    let mut count = 0;
    for event in events {
        count += write_one(*event);
    }
    count
}

/// How many write entries a trace has.
pub fn write_count(trace: &Trace) -> usize
    ensures { result ≡ write_count trace.now }
{
    let mut count = 0;
    for thread in trace.threads() {
        count += writes_in(thread.log().events());
    }
    count
}
