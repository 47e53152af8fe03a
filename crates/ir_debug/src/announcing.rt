//! The lines that a session begins with.

ghost use Rattle.std.specs.Prelude.{◌≤◌, length, unwrap_or};
ghost use Rattle.ir_stream.specs.Writing.{WritesText};
ghost use Rattle.ir_debug.specs.Machine.{opening_text};
ghost use Rattle.ir_text.specs.Texts.{number_line};
ghost use Rattle.ir_debug.specs.Openings.{opening_of};

use crate::opening::Opened;
use ir_stream::{DeviceErr, Sink, write_all};
use ir_text::{refusal_line, write_verdict};

// Writes the line of an image or a trace that is refused.
fn write_refused<W: Sink>(words: &[u8], number: Option<u8>, writer: &mut W) -> Result<(), DeviceErr>
    requires { length words.now ≤ 256 }
    ensures { WritesText W.written W.broken writer.old writer.new (number_line words.now (unwrap_or number 0)) result }
{
    write_all(writer, refusal_line(words, number).as_slice())
}

/// Writes the lines that a session begins with.
pub fn announce<W: Sink>(opened: &Opened, writer: &mut W) -> Result<(), DeviceErr>
    ensures { WritesText W.written W.broken writer.old writer.new (opening_text (opening_of opened.now)) result }
{
    match opened {
        Opened::ImageRefused(error) => write_refused(b"image refused ", error.number(), writer),
        Opened::TraceRefused(error) => write_refused(b"trace refused ", error.number(), writer),
        Opened::Unfit(verdict) => write_verdict(verdict, writer),
        Opened::Ready(_) => write_all(writer, b"ready\n"),
    }
}
