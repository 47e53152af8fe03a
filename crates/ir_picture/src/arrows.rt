//! The lines of arrows, for other viewers.

ghost use Rattle.std.specs.Prelude.{◌≡◌, ◌-◌, ◌++◌, OnOk, IfErr, codes, false};
ghost use Rattle.ir_files.specs.Writers.{writer_of};
ghost use Rattle.ir_text.specs.Buffered.{Buffered};
ghost use Rattle.ir_past.specs.Answers.{Stops};
ghost use Rattle.ir_picture.specs.Chrome.{row_number_of, time_of, arrow_end, arrow_lines, all_arrows};
ghost use Rattle.ir_picture.specs.Progress.{arrow_with};

use crate::pieces::{push_number, push_words, write_piece};
use crate::sights::Sight;
use crate::slices::{row_number_of, time_of};
use ir_past::PastErr;
use ir_stream::Sink;
use std::alloc::AllocError;

// Adds one end of the arrow of a number, at a time in the row of this number. The words are those before the arrow's number.
fn push_end(
    text: &mut Vec<u8>,
    object: u8,
    words: &[u8],
    number: usize,
    time: u128,
    row: u128,
) -> Result<(), AllocError>
    ensures { OnOk result (text.new.items ≡ text.old.items ++ arrow_with object words.now number time row) }
{
    push_number(text, b",\n{\"name\":\"object ", object)?;
    push_number(text, words, number)?;
    push_number(text, b",\"ts\":", time)?;
    push_number(text, b",\"pid\":1,\"tid\":", row)?;
    push_words(text, b"}")
}

// Adds where the arrow of a number leaves: the last time in the maker's slice.
fn push_start(text: &mut Vec<u8>, number: usize, sight: &Sight) -> Result<(), AllocError>
    ensures { OnOk result (text.new.items ≡ text.old.items ++ arrow_end (sight.now).object (codes "\"s\"") number (time_of (sight.now).maker.end.x - 1) (row_number_of (sight.now).maker)) }
{
    let time = time_of(sight.maker.end.x).saturating_sub(1);
    push_end(
        text,
        sight.object,
        b"\",\"cat\":\"sees\",\"ph\":\"s\",\"id\":",
        number,
        time,
        row_number_of(&sight.maker),
    )
}

// Adds where it arrives.
fn push_arrival(text: &mut Vec<u8>, number: usize, sight: &Sight) -> Result<(), AllocError>
    ensures { OnOk result (text.new.items ≡ text.old.items ++ arrow_end (sight.now).object (codes "\"f\",\"bp\":\"e\"") number (time_of (sight.now).seer.start.x) (row_number_of (sight.now).seer)) }
{
    push_end(
        text,
        sight.object,
        b"\",\"cat\":\"sees\",\"ph\":\"f\",\"bp\":\"e\",\"id\":",
        number,
        time_of(sight.seer.start.x),
        row_number_of(&sight.seer),
    )
}

// Adds the lines of the arrow of a number.
fn push_arrow(text: &mut Vec<u8>, number: usize, sight: &Sight) -> Result<(), AllocError>
    ensures { OnOk result (text.new.items ≡ text.old.items ++ arrow_lines number sight.now) }
{
    push_start(text, number, sight)?;
    push_arrival(text, number, sight)
}

/// Adds the lines of arrows to a text that is written in pieces.
///
/// # Errors
/// Out of memory, or the writer failed; then a prefix was written.
pub fn write_arrows<O: Sink>(
    text: &mut Vec<u8>,
    sights: &[Sight],
    out: &mut O,
) -> Result<(), PastErr>
    requires { O.broken out.old ≡ false }
    ensures ok { OnOk result (Buffered (O.written out.old) (O.written out.new) text.new.items (text.old.items ++ all_arrows 0 sights.now)) }
    ensures works { OnOk result (O.broken out.new ≡ false) }
    ensures fails { IfErr result (λ e. Stops e (writer_of (O.written out.old) (O.written out.new) (O.broken out.new)) (text.old.items ++ all_arrows 0 sights.now)) }
{
    for (number, sight) in sights.iter().enumerate() {
        write_piece(text, out)?;
        push_arrow(text, number, sight)?;
    }
    Ok(())
}
