//! The rows of the data of a picture of a run.

ghost use Rattle.std.specs.Prelude.{◌≡◌, ◌++◌, codes, OnOk};
ghost use Rattle.ir_opened.specs.Positions.{IsInside};
ghost use Rattle.ir_picture.specs.Boxes.{IsBox};
ghost use Rattle.ir_picture.specs.Numbers.{row_start};
ghost use Rattle.ir_run_picture.specs.Numbers.{last_number, step_numbers, row_end, drawn_row, way_number, rest_part, resting_row};

use crate::drawn::Drawn;
use crate::resting::Resting;
use ir_fit::Fitted;
use ir_log::Event;
use ir_opened::step_of;
use ir_past::Place;
use ir_picture::{events_in, push_box_start, push_fold, push_number, push_words, row_start};
use ir_stale_run::{Reason, Rest};
use std::alloc::{AllocError, Global};

// Adds the last step of a box; -1, if it has none.
fn push_last(text: &mut Vec<u8>, last: Option<u64>) -> Result<(), AllocError>
    ensures { OnOk result (text.new.items ≡ text.old.items ++ last_number last) }
{
    match last {
        None => push_words(text, b",-1"),
        Some(step) => push_number(text, b",", step),
    }
}

// Adds the steps of a box that begins with an event.
fn push_steps(
    text: &mut Vec<u8>,
    fitted: &Fitted,
    place: Place,
    last: Option<u64>,
) -> Result<(), AllocError>
    requires { IsInside fitted.now place.thread place.event }
    ensures { OnOk result (text.new.items ≡ text.old.items ++ step_numbers fitted.now place.thread place.event last) }
{
    push_number(text, b",", step_of(fitted, place))?;
    push_last(text, last)
}

// Adds the last numbers of the row of a box with these events.
fn push_row_end(
    alloc: Global,
    text: &mut Vec<u8>,
    fitted: &Fitted,
    events: &[Event],
    drawn: &Drawn,
) -> Result<(), AllocError>
    requires inside { IsInside fitted.now (drawn.now).own.events.thread (drawn.now).own.events.event }
    ensures { OnOk result (text.new.items ≡ text.old.items ++ row_end fitted.now events.now drawn.now) }
{
    fitted.known();
    if events.len() > 1 {
        return push_fold(alloc, text, events, fitted.trace().objects());
    }
    let place = Place {
        thread: drawn.own.events.thread,
        event: drawn.own.events.event,
    };
    push_steps(text, fitted, place, drawn.last)
}

// Adds the row of a box.
fn push_drawn(
    alloc: Global,
    text: &mut Vec<u8>,
    fitted: &Fitted,
    drawn: &Drawn,
) -> Result<(), AllocError>
    requires { IsBox fitted.now.recorded (drawn.now).own.events }
    ensures { OnOk result (text.new.items ≡ text.old.items ++ drawn_row fitted.now drawn.now) }
{
    fitted.known();
    let events = events_in(fitted.trace(), &drawn.own.events);
    push_box_start(text, events, &drawn.own)?;
    push_row_end(alloc, text, fitted, events, drawn)?;
    push_words(text, b"]")
}

/// Adds the row of the box of a number in a list.
///
/// # Errors
/// Out of memory.
pub fn push_drawn_row(
    alloc: Global,
    text: &mut Vec<u8>,
    number: usize,
    fitted: &Fitted,
    drawn: &Drawn,
) -> Result<(), AllocError>
    requires { IsBox fitted.now.recorded (drawn.now).own.events }
    ensures { OnOk result (text.new.items ≡ text.old.items ++ (row_start number ++ drawn_row fitted.now drawn.now)) }
{
    push_words(text, row_start(number).as_bytes())?;
    push_drawn(alloc, text, fitted, drawn)
}

// Adds 1 where the thread would have gone another way, 0 where it would have put another value, and the end of a row.
fn push_way(text: &mut Vec<u8>, reason: Reason) -> Result<(), AllocError>
    ensures { OnOk result (text.new.items ≡ text.old.items ++ (codes "," ++ (way_number reason ++ codes "]"))) }
{
    match reason {
        Reason::Value => push_words(text, b",0]"),
        Reason::Way => push_words(text, b",1]"),
    }
}

// Adds how a stale write rests on its read: the word that is another, what it was and is, and how the thread would have differed.
fn push_rest(text: &mut Vec<u8>, rest: &Rest) -> Result<(), AllocError>
    ensures { OnOk result (text.new.items ≡ text.old.items ++ rest_part rest.now) }
{
    push_number(text, b",", rest.word)?;
    push_number(text, b",", rest.was)?;
    push_number(text, b",", rest.is)?;
    push_way(text, rest.reason)
}

// Adds the row of a stale write.
fn push_resting(text: &mut Vec<u8>, own: &Resting) -> Result<(), AllocError>
    ensures { OnOk result (text.new.items ≡ text.old.items ++ resting_row own.now) }
{
    push_number(text, b"[", own.write.thread)?;
    push_number(text, b",", own.write.read)?;
    push_number(text, b",", own.write.event)?;
    push_rest(text, &own.rest)
}

/// Adds the row of the stale write of a number in a list.
///
/// # Errors
/// Out of memory.
pub fn push_resting_row(text: &mut Vec<u8>, number: usize, own: &Resting) -> Result<(), AllocError>
    ensures { OnOk result (text.new.items ≡ text.old.items ++ (row_start number ++ resting_row own.now)) }
{
    push_words(text, row_start(number).as_bytes())?;
    push_resting(text, own)
}
