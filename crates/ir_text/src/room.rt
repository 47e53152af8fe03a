//! Texts of any length, by one buffer.

ghost use Rattle.std.specs.Prelude.{◌≤◌, OnOk};
ghost use Rattle.arrayvec.specs.ArrayVec.{array_vec_len};
ghost use Rattle.ir_stream.specs.Answers.{AppendsPrefix};
ghost use Rattle.ir_stream.specs.Writing.{WritesOrFails};
ghost use Rattle.ir_text.specs.Buffered.{Buffered};

use crate::text::Text;
use ir_stream::{DeviceErr, Sink, write_all};

/// How many bytes a text has at most where there is room for another line.
pub const FULL: usize = 896;

/// Makes room for a line: writes the text and empties it, where it is nearly full.
pub fn make_room<W: Sink>(text: &mut Text, writer: &mut W) -> Result<(), DeviceErr>
    ensures writes { WritesOrFails W.broken writer.old writer.new
        (Buffered (W.written writer.old) (W.written writer.new) text.new.items text.old.items)
        (AppendsPrefix (W.written writer.old) (W.written writer.new) text.old.items) result }
    ensures room { OnOk result (array_vec_len text.new ≤ FULL) }
{
    if text.len() <= FULL {
        return Ok(());
    }
    write_all(writer, text.as_slice())?;
    text.clear();
    Ok(())
}
