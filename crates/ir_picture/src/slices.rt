//! The lines of boxes, for other viewers.

ghost use Rattle.std.specs.Prelude.{◌≡◌, ◌-◌, ◌<◌, ◌≤◌, ℕ, [], ◌∷◌, ◌++◌, decimal, length, slice_get, Some, OnOk};
ghost use Rattle.ir_log.specs.Logging.{label_of};
ghost use Rattle.ir_log.specs.declared.event.Event.TheVariants.{Write};
ghost use Rattle.ir_text.specs.Texts.{event_text};
ghost use Rattle.ir_coherence.specs.Before.{IsBefore};
ghost use Rattle.ir_past.specs.Past.{IsRising};
ghost use Rattle.ir_past.specs.declared.stale_write.StaleWrite.{StaleWrite};
ghost use Rattle.ir_picture.specs.Boxes.{IsBox};
ghost use Rattle.ir_picture.specs.Chrome.{row_number, row_number_of, time_of, box_name, drawn_as, event_arguments, first_arguments};
ghost use Rattle.ir_picture.specs.Chrome.{fold_arguments, stale_argument, stale_at, slice_head, slice_place, slice_start, slice_line};
ghost use Rattle.ir_picture.specs.Chrome.{box_line};
ghost use Rattle.ir_picture.specs.Progress.{comes_before};

use crate::event_box::EventBox;
use crate::folds::pairs_read;
use crate::pieces::{push_number, push_words};
use crate::placed_box::PlacedBox;
use crate::threads::events_in;
use ir_log::Event;
use ir_past::StaleWrite;
use ir_text::{Text, put_event_text};
use ir_trace::Trace;
use std::alloc::{AllocError, Global};

/// Adds words and the number of a thread's first row: other viewers want slices of a row to nest, so each thread has room for 64 rows.
///
/// # Errors
/// Out of memory.
pub fn push_row(text: &mut Vec<u8>, words: &[u8], thread: u8) -> Result<(), AllocError>
    ensures { OnOk result (text.new.items ≡ text.old.items ++ (words.now ++ decimal (row_number thread))) }
{
    push_number(text, words, thread as u32 * 64)
}

/// The number of the row of a box.
pub fn row_number_of(own: &PlacedBox) -> u128
    ensures { result ≡ row_number_of own.now }
{
    own.events.thread as u128 * 64 + own.row as u128
}

/// The time at a place.
pub fn time_of(x: u64) -> u128
    ensures { result ≡ time_of x }
{
    x as u128 * 10
}

// Adds what an event says.
fn push_event(text: &mut Vec<u8>, event: Event) -> Result<(), AllocError>
    ensures { OnOk result (text.new.items ≡ text.old.items ++ event_text (label_of event)) }
{
    let mut said = Text::new();
    put_event_text(&mut said, event);
    push_words(text, said.as_slice())
}

// Adds the name of a box with these events.
fn push_name(text: &mut Vec<u8>, events: &[Event]) -> Result<(), AllocError>
    requires { 1 ≤ length events.now }
    ensures { OnOk result (text.new.items ≡ text.old.items ++ box_name events.now) }
{
    let count = events.len();
    if count == 1 {
        return push_event(text, events[0]);
    }
    push_number(text, b"again x", count)
}

// Adds what an event is, and what it is drawn as: an answer as an instant, all else as a slice of this length.
fn push_event_drawn(text: &mut Vec<u8>, event: Event, long: u128) -> Result<(), AllocError>
    ensures { OnOk result (text.new.items ≡ text.old.items ++ drawn_as (event ∷ []) long) }
{
    match event {
        Event::Answer(..) => push_words(text, b"\"cat\":\"call\",\"ph\":\"i\",\"s\":\"t\""),
        Event::Read { .. } => push_number(text, b"\"cat\":\"read\",\"ph\":\"X\",\"dur\":", long),
        Event::Write { .. } => {
            push_number(text, b"\"cat\":\"write\",\"ph\":\"X\",\"dur\":", long)
        }
        Event::Try { .. } => push_number(text, b"\"cat\":\"try\",\"ph\":\"X\",\"dur\":", long),
    }
}

// Adds the same of the first of a box's events.
fn push_drawn(text: &mut Vec<u8>, events: &[Event], own: &PlacedBox) -> Result<(), AllocError>
    requires { 1 ≤ length events.now }
    ensures { OnOk result (text.new.items ≡ text.old.items ++ drawn_as events.now (time_of ((own.now).end.x - (own.now).start.x))) }
{
    let long = time_of(own.end.x.saturating_sub(own.start.x));
    push_event_drawn(text, events[0], long)
}

// Adds the line of a box with these events up to where it is: its name, and what it is drawn as.
fn push_head(text: &mut Vec<u8>, events: &[Event], own: &PlacedBox) -> Result<(), AllocError>
    requires { 1 ≤ length events.now }
    ensures { OnOk result (text.new.items ≡ text.old.items ++ slice_head events.now own.now) }
{
    push_words(text, b",\n{\"name\":\"")?;
    push_name(text, events)?;
    push_words(text, b"\",")?;
    push_drawn(text, events, own)
}

// Adds where a box is, and its events.
fn push_place(text: &mut Vec<u8>, own: &PlacedBox) -> Result<(), AllocError>
    ensures { OnOk result (text.new.items ≡ text.old.items ++ slice_place own.now) }
{
    push_number(text, b",\"ts\":", time_of(own.start.x))?;
    push_number(text, b",\"pid\":1,\"tid\":", row_number_of(own))?;
    push_number(text, b",\"args\":{\"event\":", own.events.event)?;
    push_number(text, b",\"events\":", own.events.count)
}

// Adds what is known of a write entry.
fn push_write_arguments(
    text: &mut Vec<u8>,
    object: u8,
    version: u32,
    readers: u32,
) -> Result<(), AllocError>
    ensures { OnOk result (text.new.items ≡ text.old.items ++ event_arguments (Write object version readers)) }
{
    push_number(text, b",\"object\":", object)?;
    push_number(text, b",\"version\":", version)?;
    push_number(text, b",\"new_version\":", version as u64 + 1)?;
    push_number(text, b",\"readers\":", readers)
}

// Adds what is known of an event.
fn push_event_arguments(text: &mut Vec<u8>, event: Event) -> Result<(), AllocError>
    ensures { OnOk result (text.new.items ≡ text.old.items ++ event_arguments event) }
{
    match event {
        Event::Answer(_, value) => push_number(text, b",\"value\":", value),
        Event::Read { object, version } => {
            push_number(text, b",\"object\":", object)?;
            push_number(text, b",\"version\":", version)
        }
        Event::Write {
            object,
            version,
            readers,
        } => push_write_arguments(text, object, version, readers),
        Event::Try { object } => push_number(text, b",\"object\":", object),
    }
}

// Adds what is known of the first of a box's events.
fn push_first_arguments(text: &mut Vec<u8>, events: &[Event]) -> Result<(), AllocError>
    requires { 1 ≤ length events.now }
    ensures { OnOk result (text.new.items ≡ text.old.items ++ first_arguments events.now) }
{
    push_event_arguments(text, events[0])
}

/// Adds the line of a box with these events up to what is known of the first of them.
///
/// # Errors
/// Out of memory.
pub fn push_slice_start(
    text: &mut Vec<u8>,
    events: &[Event],
    own: &PlacedBox,
) -> Result<(), AllocError>
    requires { 1 ≤ length events.now }
    ensures { OnOk result (text.new.items ≡ text.old.items ++ slice_start events.now own.now) }
{
    push_head(text, events, own)?;
    push_place(text, own)?;
    push_first_arguments(text, events)
}

/// Adds what a box of more than one event reads of this many objects.
///
/// # Errors
/// Out of memory.
pub fn push_fold_arguments(
    alloc: Global,
    text: &mut Vec<u8>,
    events: &[Event],
    objects: u8,
) -> Result<(), AllocError>
    ensures { OnOk result (text.new.items ≡ text.old.items ++ fold_arguments objects events.now) }
{
    if events.len() <= 1 {
        return Ok(());
    }
    let pairs = pairs_read(alloc, events, objects)?;
    push_words(text, b",\"reads\":[")?;
    push_words(text, pairs.as_bytes())?;
    push_words(text, b"]")
}

/// Adds what is said of a stale write, if this is one.
///
/// # Errors
/// Out of memory.
pub fn push_stale_argument(text: &mut Vec<u8>, stale: Option<StaleWrite>) -> Result<(), AllocError>
    ensures { OnOk result (text.new.items ≡ text.old.items ++ stale_argument stale) }
{
    match stale {
        None => Ok(()),
        Some(row) => push_number(text, b",\"stale\":true,\"read_at_event\":", row.read),
    }
}

// Adds the line of a box with these events, of which the first is this stale write, if it is one.
fn push_slice(
    alloc: Global,
    text: &mut Vec<u8>,
    objects: u8,
    events: &[Event],
    stale: Option<StaleWrite>,
    own: &PlacedBox,
) -> Result<(), AllocError>
    requires { 1 ≤ length events.now }
    ensures { OnOk result (text.new.items ≡ text.old.items ++ slice_line objects events.now stale own.now) }
{
    push_slice_start(text, events, own)?;
    push_fold_arguments(alloc, text, events, objects)?;
    push_stale_argument(text, stale)?;
    push_words(text, b"}}")
}

// Whether a stale write comes before the first event of a box.
fn comes_before(row: &StaleWrite, own: &EventBox) -> bool
    ensures { result ≡ comes_before (own.now).thread (own.now).event row.now }
{
    row.thread < own.thread || row.thread == own.thread && row.event < own.event
}

/// How many of these stale writes, which come by rising thread and event, come before the first event of a box. Time is logarithmic in them.
pub fn count_before(stale: &[StaleWrite], own: &EventBox) -> usize
    requires { IsRising stale.now }
    ensures before { (k : ℕ) (x : StaleWrite) → k < result → slice_get stale.now k ≡ Some x → IsBefore x.thread x.event (own.now).thread (own.now).event }
    ensures rest { (k : ℕ) (x : StaleWrite) → result ≤ k → slice_get stale.now k ≡ Some x → IsBefore x.thread x.event (own.now).thread (own.now).event → ⊥ }
{
    stale.partition_point(|row| comes_before(row, own))
}

// A stale write, if it is the first event of a box.
#[tactic(auto, unfolding(crate::specs::Chrome::stale_at))]
fn stale_by(row: &StaleWrite, own: &EventBox) -> Option<StaleWrite>
    ensures { result ≡ stale_at (λ (x : StaleWrite). x) (row.now ∷ []) (own.now).thread (own.now).event }
{
    if row.thread == own.thread && row.event == own.event {
        Some(*row)
    } else {
        None
    }
}

// The stale write that is the first event of a box, if these, which come by rising thread and event, have it.
fn stale_of(stale: &[StaleWrite], own: &EventBox) -> Option<StaleWrite>
    requires { IsRising stale.now }
    ensures { result ≡ stale_at (λ (x : StaleWrite). x) stale.now (own.now).thread (own.now).event }
{
    match stale.get(count_before(stale, own)) {
        None => None,
        Some(row) => stale_by(row, own),
    }
}

/// Adds the line of a box of a trace with these stale writes. Time is logarithmic in the stale writes.
///
/// # Errors
/// Out of memory.
pub fn push_box(
    alloc: Global,
    text: &mut Vec<u8>,
    trace: &Trace,
    stale: &[StaleWrite],
    own: &PlacedBox,
) -> Result<(), AllocError>
    requires box_of { IsBox trace.now (own.now).events }
    requires rising { IsRising stale.now }
    ensures { OnOk result (text.new.items ≡ text.old.items ++ box_line trace.now stale.now own.now) }
{
    let events = events_in(trace, &own.events);
    let row = stale_of(stale, &own.events);
    push_slice(alloc, text, trace.objects(), events, row, own)
}
