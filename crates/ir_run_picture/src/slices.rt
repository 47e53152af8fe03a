//! The lines of boxes of a run, for other viewers.

ghost use Rattle.std.specs.Prelude.{◌≡◌, ◌≤◌, [], ◌∷◌, ◌++◌, codes, length, OnOk};
ghost use Rattle.ir_opened.specs.Positions.{IsInside};
ghost use Rattle.ir_past.specs.Past.{IsRising};
ghost use Rattle.ir_picture.specs.Boxes.{IsBox};
ghost use Rattle.ir_picture.specs.Chrome.{stale_at};
ghost use Rattle.ir_run_picture.specs.Resting.{stale_of_rests};
ghost use Rattle.ir_run_picture.specs.Chrome.{last_argument, step_arguments, would_words, rest_arguments, resting_arguments, drawn_slice, drawn_line};
ghost use Rattle.ir_run_picture.specs.declared.resting.Resting.{Resting};

use crate::drawn::Drawn;
use crate::resting::Resting;
use crate::run_picture::RunPicture;
use ir_fit::Fitted;
use ir_log::Event;
use ir_opened::step_of;
use ir_past::{Place, StaleWrite};
use ir_picture::{
    EventBox, count_before, events_in, push_fold_arguments, push_number, push_slice_start,
    push_stale_argument, push_words,
};
use ir_stale_run::{Reason, Rest};
use std::alloc::{AllocError, Global};

// Adds how many steps a thread took before the last step of an event, if it has one.
fn push_last(text: &mut Vec<u8>, last: Option<u64>) -> Result<(), AllocError>
    ensures { OnOk result (text.new.items ≡ text.old.items ++ last_argument last) }
{
    match last {
        None => Ok(()),
        Some(step) => push_number(text, b",\"last_step\":", step),
    }
}

// Adds the steps of a box of one of these events.
fn push_steps(
    text: &mut Vec<u8>,
    fitted: &Fitted,
    events: &[Event],
    drawn: &Drawn,
) -> Result<(), AllocError>
    requires { IsInside fitted.now (drawn.now).own.events.thread (drawn.now).own.events.event }
    ensures { OnOk result (text.new.items ≡ text.old.items ++ step_arguments fitted.now events.now drawn.now) }
{
    if events.len() > 1 {
        return Ok(());
    }
    let place = Place {
        thread: drawn.own.events.thread,
        event: drawn.own.events.event,
    };
    push_number(text, b",\"step\":", step_of(fitted, place))?;
    push_last(text, drawn.last)
}

// Adds how a thread would have differed.
fn push_would(text: &mut Vec<u8>, reason: Reason) -> Result<(), AllocError>
    ensures { OnOk result (text.new.items ≡ text.old.items ++ (codes ",\"would\":\"" ++ (would_words reason ++ codes "\""))) }
{
    match reason {
        Reason::Value => push_words(text, b",\"would\":\"put another value\""),
        Reason::Way => push_words(text, b",\"would\":\"go another way\""),
    }
}

// Adds how a stale write rests on its read.
fn push_rest(text: &mut Vec<u8>, rest: &Rest) -> Result<(), AllocError>
    ensures { OnOk result (text.new.items ≡ text.old.items ++ rest_arguments rest.now) }
{
    push_number(text, b",\"word\":", rest.word)?;
    push_number(text, b",\"was\":", rest.was)?;
    push_number(text, b",\"is\":", rest.is)?;
    push_would(text, rest.reason)
}

// Adds what is said of a stale write that rests on its read, if this is one.
fn push_resting(text: &mut Vec<u8>, resting: Option<Resting>) -> Result<(), AllocError>
    ensures { OnOk result (text.new.items ≡ text.old.items ++ resting_arguments resting) }
{
    let Some(own) = resting else {
        return Ok(());
    };
    push_stale_argument(text, Some(own.write))?;
    push_rest(text, &own.rest)
}

// A stale write that rests on its read, if it is the first event of a box.
#[tactic(auto, unfolding(ir_picture::specs::Chrome::stale_at))]
fn resting_by(row: &Resting, own: &EventBox) -> Option<Resting>
    ensures { result ≡ stale_at (λ (x : Resting). x.write) (row.now ∷ []) (own.now).thread (own.now).event }
{
    if row.write.thread == own.thread && row.write.event == own.event {
        Some(*row)
    } else {
        None
    }
}

// Of these stale writes, which come by rising thread and event, the first event of a box, if it is one of them, with how it rests. Time is
// logarithmic in them.
fn resting_of(kept: &[Resting], stale: &[StaleWrite], own: &EventBox) -> Option<Resting>
    requires rising { IsRising stale.now }
    requires kept { stale.now ≡ stale_of_rests kept.now }
    ensures { result ≡ stale_at (λ (x : Resting). x.write) kept.now (own.now).thread (own.now).event }
{
    match kept.get(count_before(stale, own)) {
        None => None,
        Some(row) => resting_by(row, own),
    }
}

// Adds the line of a box with these events, of which the first is this stale write, if it is one.
fn push_drawn(
    alloc: Global,
    text: &mut Vec<u8>,
    fitted: &Fitted,
    events: &[Event],
    resting: Option<Resting>,
    drawn: &Drawn,
) -> Result<(), AllocError>
    requires some { 1 ≤ length events.now }
    requires inside { IsInside fitted.now (drawn.now).own.events.thread (drawn.now).own.events.event }
    ensures { OnOk result (text.new.items ≡ text.old.items ++ drawn_slice fitted.now events.now resting drawn.now) }
{
    push_slice_start(text, events, &drawn.own)?;
    push_fold_arguments(alloc, text, events, fitted.trace().objects())?;
    push_steps(text, fitted, events, drawn)?;
    push_resting(text, resting)?;
    push_words(text, b"}}")
}

/// Adds the line of a box of a run with this picture.
///
/// # Errors
/// Out of memory.
pub fn push_slice(
    alloc: Global,
    text: &mut Vec<u8>,
    fitted: &Fitted,
    shown: &RunPicture,
    drawn: &Drawn,
) -> Result<(), AllocError>
    requires box_of { IsBox fitted.now.recorded (drawn.now).own.events }
    requires rising { IsRising (shown.now).picture.stale.items }
    requires kept { (shown.now).picture.stale.items ≡ stale_of_rests (shown.now).kept.items }
    ensures { OnOk result (text.new.items ≡ text.old.items ++ drawn_line fitted.now (shown.now).kept.items drawn.now) }
{
    fitted.known();
    let events = events_in(fitted.trace(), &drawn.own.events);
    push_drawn(
        alloc,
        text,
        fitted,
        events,
        resting_of(&shown.kept, &shown.picture.stale, &drawn.own.events),
        drawn,
    )
}
