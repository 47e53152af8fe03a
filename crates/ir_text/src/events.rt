//! The lines of a log.

ghost use Rattle.std.specs.Prelude.{◌≡◌, ◌≤◌, ◌+◌, ◌++◌, length, map, codes, decimal};
ghost use Rattle.arrayvec.specs.ArrayVec.{array_vec_len};
ghost use Rattle.ir_log.specs.Logging.{label_of};
ghost use Rattle.ir_stream.specs.Writing.{WritesText};
ghost use Rattle.ir_text.specs.Texts.{kind_text, event_text, log_text};

use crate::room::{FULL, make_room};
use crate::text::{Text, put_number};
use ir_log::Event;
use ir_runs::EnvKind;
use ir_stream::{DeviceErr, Sink, append, write_all};

fn kind_name(kind: EnvKind) -> &'static [u8]
    ensures value { result.now ≡ kind_text kind }
    ensures short { length result.now ≤ 8 }
{
    match kind {
        EnvKind::Clock => b"clock",
        EnvKind::Random => b"random",
        EnvKind::Input => b"input",
    }
}

/// Puts what an event says at the end, as the lines of a log have it: at most 96 bytes, for which there has to be room.
pub fn put_event_text(text: &mut Text, event: Event)
    requires { array_vec_len text.old ≤ 920 }
    ensures text { text.new.items ≡ text.old.items ++ event_text (label_of event) }
    ensures len { array_vec_len text.new ≤ array_vec_len text.old + 96 }
{
    match event {
        Event::Answer(kind, value) => {
            append(text, kind_name(kind));
            put_number(text, b" ", value as u64);
        }
        Event::Read { object, version } => {
            put_number(text, b"read ", object as u64);
            put_number(text, b" version ", version as u64);
        }
        Event::Write {
            object,
            version,
            readers,
        } => {
            put_number(text, b"write ", object as u64);
            put_number(text, b" version ", version as u64);
            put_number(text, b" readers ", readers as u64);
        }
        Event::Try { object } => put_number(text, b"try ", object as u64),
    }
}

// Puts the line of an event at the end, with its number among those of its thread.
fn put_event(text: &mut Text, index: u64, event: Event)
    requires { array_vec_len text.old ≤ FULL }
    ensures { text.new.items ≡ text.old.items ++ (decimal index ++ codes " " ++ event_text (label_of event) ++ codes "\n") }
{
    put_number(text, b"", index);
    append(text, b" ");
    put_event_text(text, event);
    append(text, b"\n");
}

// Puts the first line into an empty text: how many events, of how many.
fn put_counts(text: &mut Text, so_far: usize, all: usize)
    requires { array_vec_len text.old ≡ 0 }
    ensures { text.new.items ≡ text.old.items ++ (codes "log " ++ decimal so_far ++ codes " of " ++ decimal all ++ codes "\n") }
{
    put_number(text, b"log ", so_far as u64);
    put_number(text, b" of ", all as u64);
    append(text, b"\n");
}

/// Writes the lines of the events that a thread has logged so far, of `all` that it logs in its run. Takes no memory.
pub fn write_log<W: Sink>(so_far: &[Event], all: usize, writer: &mut W) -> Result<(), DeviceErr>
    ensures { WritesText W.written W.broken writer.old writer.new (log_text (map label_of so_far.now) all) result }
{
    let mut text = Text::new();
    put_counts(&mut text, so_far.len(), all);
    for (index, event) in so_far.iter().enumerate() {
        make_room(&mut text, writer)?;
        put_event(&mut text, index as u64, *event);
    }
    write_all(writer, text.as_slice())
}
