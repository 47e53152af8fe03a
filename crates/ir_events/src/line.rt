//! The line of an event.

ghost use Rattle.std.specs.Prelude.{◌≡◌, ◌++◌, codes, IfOk};
ghost use Rattle.arrayvec.specs.ArrayVec.{array_vec_len};
ghost use Rattle.ir_log.specs.Logging.{label_of};
ghost use Rattle.ir_text.specs.Texts.{event_text};
ghost use Rattle.ir_events.specs.Lines.{event_place_text, event_line};

use crate::logged::Logged;
use ir_log::Event;
use ir_stream::append;
use ir_text::{Text, put_event_text, put_number};
use std::alloc::{AllocError, Global};

// Puts where the event is into an empty text.
fn put_place(text: &mut Text, logged: &Logged)
    requires { array_vec_len text.old ≡ 0 }
    ensures { text.new.items ≡ text.old.items ++ event_place_text logged.now }
{
    let mut digits = [0; 8];
    let _ = hex::encode_to_slice(logged.pc.to_be_bytes(), &mut digits);
    put_number(text, b"thread ", logged.thread as u64);
    put_number(text, b" event ", logged.number as u64);
    put_number(text, b" step ", logged.step);
    append(text, b" pc ");
    append(text, &digits);
}

// Puts what it says into an empty text, and the end of the line.
fn put_rest(text: &mut Text, event: Event)
    requires { array_vec_len text.old ≡ 0 }
    ensures { text.new.items ≡ text.old.items ++ (codes " " ++ event_text (label_of event) ++ codes "\n") }
{
    append(text, b" ");
    put_event_text(text, event);
    append(text, b"\n");
}

/// The line of an event, with a name of its place.
///
/// # Errors
/// Out of memory.
pub fn event_line(alloc: Global, logged: &Logged, name: &[u8]) -> Result<Vec<u8>, AllocError>
    ensures { IfOk result (λ line. line.items ≡ event_line logged.now name.now) }
{
    let mut place = Text::new();
    let mut rest = Text::new();
    put_place(&mut place, logged);
    put_rest(&mut rest, logged.event);
    let mut line = Vec::from_slice(alloc, place.as_slice())?;
    line.extend_from_slice(name)?;
    line.extend_from_slice(rest.as_slice())?;
    Ok(line)
}
