//! The rows of a picture's data.

ghost use Rattle.std.specs.Prelude.{◌≡◌, ◌≤◌, ◌++◌, length, IfOk, OnOk};
ghost use Rattle.std.specs.String.{string_bytes};
ghost use Rattle.ir_picture.specs.Numbers.{row_start, event_numbers, first_numbers, place_numbers, fold_numbers, box_row, thread_row, stale_row};
ghost use Rattle.ir_picture.specs.Progress.{end_numbers, box_start, end_part, point_part};
ghost use Rattle.ir_picture.specs.Boxes.{IsBox};
ghost use Rattle.ir_trace.specs.Encoding.{kind_tag};

use crate::folds::pairs_read;
use crate::pieces::{push_number, push_words};
use crate::placed_box::{PlacedBox, Point};
use crate::threads::events_in;
use ir_log::Event;
use ir_past::StaleWrite;
use ir_runs::EnvKind;
use ir_trace::{ThreadTrace, Trace};
use std::alloc::{AllocError, Global};

/// What comes before a row of a list by its number: each row begins a line.
pub fn row_start(number: usize) -> &'static str
    ensures { result.now ≡ row_start number }
{
    if number == 0 { "\n" } else { ",\n" }
}

// The tag of a call of the environment.
fn tag(kind: EnvKind) -> u8
    ensures { result ≡ kind_tag kind }
{
    match kind {
        EnvKind::Clock => 1,
        EnvKind::Random => 2,
        EnvKind::Input => 3,
    }
}

// Adds the numbers of an event: its tag in a trace, its object or value, its version, its readers.
fn push_event(text: &mut Vec<u8>, event: Event) -> Result<(), AllocError>
    ensures { OnOk result (text.new.items ≡ text.old.items ++ event_numbers event) }
{
    match event {
        Event::Answer(kind, value) => {
            push_number(text, b",", tag(kind))?;
            push_number(text, b",", value)?;
            push_words(text, b",0,0")
        }
        Event::Read { object, version } => {
            push_number(text, b",4,", object)?;
            push_number(text, b",", version)?;
            push_words(text, b",0")
        }
        Event::Write {
            object,
            version,
            readers,
        } => {
            push_number(text, b",5,", object)?;
            push_number(text, b",", version)?;
            push_number(text, b",", readers)
        }
        Event::Try { object } => {
            push_number(text, b",6,", object)?;
            push_words(text, b",0,0")
        }
    }
}

// Adds the numbers of the first of these events.
fn push_first(text: &mut Vec<u8>, events: &[Event]) -> Result<(), AllocError>
    requires { 1 ≤ length events.now }
    ensures { OnOk result (text.new.items ≡ text.old.items ++ first_numbers events.now) }
{
    push_event(text, events[0])
}

// Adds where a box ends, when it starts and ends, when its last event came, and its row.
fn push_ends(text: &mut Vec<u8>, own: &PlacedBox) -> Result<(), AllocError>
    ensures { OnOk result (text.new.items ≡ text.old.items ++ end_numbers own.now) }
{
    push_number(text, b",", own.end.x)?;
    push_number(text, b",", own.start.u)?;
    push_number(text, b",", own.end.u)?;
    push_number(text, b",", own.came)?;
    push_number(text, b",", own.row)
}

// Adds the places of a box, and its row.
fn push_places(text: &mut Vec<u8>, own: &PlacedBox) -> Result<(), AllocError>
    ensures { OnOk result (text.new.items ≡ text.old.items ++ place_numbers own.now) }
{
    push_number(text, b",", own.start.x)?;
    push_ends(text, own)
}

/// Adds the row of a box with these events up to its last numbers.
///
/// # Errors
/// Out of memory.
pub fn push_box_start(
    text: &mut Vec<u8>,
    events: &[Event],
    own: &PlacedBox,
) -> Result<(), AllocError>
    requires { 1 ≤ length events.now }
    ensures { OnOk result (text.new.items ≡ text.old.items ++ box_start events.now own.now) }
{
    push_number(text, b"[", own.events.thread)?;
    push_number(text, b",", own.events.event)?;
    push_number(text, b",", own.events.count)?;
    push_first(text, events)?;
    push_places(text, own)
}

/// Adds what is said of a box of more than one event: that it has no steps, and what it reads of this many objects.
///
/// # Errors
/// Out of memory.
pub fn push_fold(
    alloc: Global,
    text: &mut Vec<u8>,
    events: &[Event],
    objects: u8,
) -> Result<(), AllocError>
    ensures { OnOk result (text.new.items ≡ text.old.items ++ fold_numbers objects events.now) }
{
    if events.len() <= 1 {
        return Ok(());
    }
    let pairs = pairs_read(alloc, events, objects)?;
    push_words(text, b",-1,-1,[")?;
    push_words(text, pairs.as_bytes())?;
    push_words(text, b"]")
}

// Adds the row of a box.
fn push_box(
    alloc: Global,
    text: &mut Vec<u8>,
    trace: &Trace,
    own: &PlacedBox,
) -> Result<(), AllocError>
    requires { IsBox trace.now (own.now).events }
    ensures { OnOk result (text.new.items ≡ text.old.items ++ box_row trace.now own.now) }
{
    let events = events_in(trace, &own.events);
    push_box_start(text, events, own)?;
    push_fold(alloc, text, events, trace.objects())?;
    push_words(text, b"]")
}

/// Adds the row of the box of a number in a list.
///
/// # Errors
/// Out of memory.
pub fn push_box_row(
    alloc: Global,
    text: &mut Vec<u8>,
    number: usize,
    trace: &Trace,
    own: &PlacedBox,
) -> Result<(), AllocError>
    requires { IsBox trace.now (own.now).events }
    ensures { OnOk result (text.new.items ≡ text.old.items ++ (row_start number ++ box_row trace.now own.now)) }
{
    push_words(text, row_start(number).as_bytes())?;
    push_box(alloc, text, trace, own)
}

// How many events a thread has.
fn event_count(thread: &ThreadTrace) -> usize
    ensures { result ≡ length (thread.now).events }
{
    thread.log().events().len()
}

// How a thread ended, and how many steps it took.
fn end_part(alloc: Global, end: u8, code: u32, steps: u64) -> Result<String, AllocError>
    ensures { IfOk result (λ s. string_bytes s ≡ end_part end code steps) }
{
    format!(in alloc; "{{\"end\":{end},\"code\":{code},\"steps\":{steps}")
}

// How many events it has, and where it ends.
fn point_part(alloc: Global, events: usize, place: Point) -> Result<String, AllocError>
    ensures { IfOk result (λ s. string_bytes s ≡ point_part events place) }
{
    let Point { x, u } = place;
    format!(in alloc; ",\"events\":{events},\"x\":{x},\"u\":{u}}}")
}

/// The row of a thread that ends at a place.
///
/// # Errors
/// Out of memory.
pub fn thread_row(alloc: Global, thread: &ThreadTrace, place: Point) -> Result<String, AllocError>
    ensures { IfOk result (λ s. string_bytes s ≡ thread_row thread.now place) }
{
    let end = thread.end();
    let ended = end_part(alloc, end.number(), end.code(), thread.steps())?;
    let point = point_part(alloc, event_count(thread), place)?;
    format!(in alloc; "{ended}{point}")
}

// Adds the row of a stale write.
fn push_stale(text: &mut Vec<u8>, row: &StaleWrite) -> Result<(), AllocError>
    ensures { OnOk result (text.new.items ≡ text.old.items ++ stale_row row.now) }
{
    push_number(text, b"[", row.thread)?;
    push_number(text, b",", row.read)?;
    push_number(text, b",", row.event)?;
    push_words(text, b"]")
}

/// Adds the row of the stale write of a number in a list.
///
/// # Errors
/// Out of memory.
pub fn push_stale_row(text: &mut Vec<u8>, number: usize, row: &StaleWrite) -> Result<(), AllocError>
    ensures { OnOk result (text.new.items ≡ text.old.items ++ (row_start number ++ stale_row row.now)) }
{
    push_words(text, row_start(number).as_bytes())?;
    push_stale(text, row)
}
