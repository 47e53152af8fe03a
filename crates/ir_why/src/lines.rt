//! The lines of `ir why`.

ghost use Rattle.std.specs.Prelude.{◌≡◌, ◌++◌, ◌<◌, length, IfOk, OnOk};
ghost use Rattle.std.specs.String.{string_bytes};
ghost use Rattle.ir_trace.specs.Recorded.{recorded_thread};
ghost use Rattle.ir_why.specs.Lines.{event_words, past_line, link_line};

use crate::link::Link;
use ir_past::{Place, event_of, place_text};
use ir_text::{Text, put_event_text};
use ir_trace::Trace;
use std::alloc::{AllocError, Global};

/// Adds an event: its thread, its place there, and what it logged.
///
/// # Errors
/// Out of memory.
pub fn push_event(
    alloc: Global,
    text: &mut Vec<u8>,
    trace: &Trace,
    place: Place,
) -> Result<(), AllocError>
    requires thread { place.thread < length trace.now.threads }
    requires event { place.event < length (recorded_thread trace.now place.thread).events }
    ensures { OnOk result (text.new.items ≡ text.old.items ++ event_words trace.now place) }
{
    let mut logged = Text::new();
    put_event_text(&mut logged, event_of(trace, place));
    text.extend_from_slice(place_text(alloc, &place)?.as_bytes())?;
    text.extend_from_slice(b" ")?;
    text.extend_from_slice(logged.as_slice())?;
    text.extend_from_slice(b"\n")?;
    Ok(())
}

/// The line of a past.
///
/// # Errors
/// Out of memory.
pub fn past_line(alloc: Global, counts: &[u32]) -> Result<String, AllocError>
    ensures { IfOk result (λ s. string_bytes s ≡ past_line counts.now) }
{
    let mut line = String::from_str(alloc, "past")?;
    for count in counts {
        line.push_str(format!(in alloc; " {count}")?.as_str())?;
    }
    line.push('\n')?;
    Ok(line)
}

/// The line of a link.
///
/// # Errors
/// Out of memory.
pub fn link_line(alloc: Global, link: &Link) -> Result<String, AllocError>
    ensures { IfOk result (λ s. string_bytes s ≡ link_line link.now) }
{
    let waiting = place_text(alloc, &link.waiting)?;
    let needed = place_text(alloc, &link.needed)?;
    format!(in alloc; "since {waiting} waited for {needed}\n")
}
