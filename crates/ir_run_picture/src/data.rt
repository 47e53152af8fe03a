//! The data of a picture of a run.

ghost use Rattle.std.specs.Prelude.{◌≡◌, ◌++◌, ℕ, Some, IfErr, OnOk, false};
ghost use Rattle.std.specs.List.{slice_get};
ghost use Rattle.std.specs.Io.KnownBytes.{Appends};
ghost use Rattle.ir_files.specs.Writers.{writer_of};
ghost use Rattle.ir_text.specs.Buffered.{Buffered};
ghost use Rattle.ir_past.specs.Answers.{Stops};
ghost use Rattle.ir_picture.specs.Boxes.{IsBox};
ghost use Rattle.ir_picture.specs.Numbers.{rows_from};
ghost use Rattle.ir_picture.specs.Progress.{stale_head, IsOfPicture};
ghost use Rattle.ir_run_picture.specs.Steps.{AreDrawn};
ghost use Rattle.ir_run_picture.specs.Numbers.{drawn_row, resting_row, run_data_rows};
ghost use Rattle.ir_run_picture.specs.declared.drawn.Drawn.{Drawn};

use crate::drawn::Drawn;
use crate::resting::Resting;
use crate::rows::{push_drawn_row, push_resting_row};
use crate::view::View;
use ir_fit::Fitted;
use ir_past::PastErr;
use ir_picture::{Frame, data_head, push_words, write_last, write_piece};
use ir_stream::Sink;
use std::alloc::Global;

// Adds the rows of boxes to a text that is written in pieces.
fn write_box_rows<O: Sink>(
    alloc: Global,
    text: &mut Vec<u8>,
    fitted: &Fitted,
    drawn: &[Drawn],
    out: &mut O,
) -> Result<(), PastErr>
    requires works { O.broken out.old ≡ false }
    requires boxes { (k : ℕ) (d : Drawn) → slice_get drawn.now k ≡ Some d → IsBox fitted.now.recorded d.own.events }
    ensures ok { OnOk result (Buffered (O.written out.old) (O.written out.new) text.new.items (text.old.items ++ rows_from (drawn_row fitted.now) 0 drawn.now)) }
    ensures works { OnOk result (O.broken out.new ≡ false) }
    ensures fails { IfErr result (λ e. Stops e (writer_of (O.written out.old) (O.written out.new) (O.broken out.new)) (text.old.items ++ rows_from (drawn_row fitted.now) 0 drawn.now)) }
{
    for (number, own) in drawn.iter().enumerate() {
        write_piece(text, out)?;
        push_drawn_row(alloc, text, number, fitted, own)?;
    }
    Ok(())
}

// Adds the rows of stale writes to a text that is written in pieces.
fn write_stale_rows<O: Sink>(
    text: &mut Vec<u8>,
    kept: &[Resting],
    out: &mut O,
) -> Result<(), PastErr>
    requires { O.broken out.old ≡ false }
    ensures ok { OnOk result (Buffered (O.written out.old) (O.written out.new) text.new.items (text.old.items ++ rows_from resting_row 0 kept.now)) }
    ensures works { OnOk result (O.broken out.new ≡ false) }
    ensures fails { IfErr result (λ e. Stops e (writer_of (O.written out.old) (O.written out.new) (O.broken out.new)) (text.old.items ++ rows_from resting_row 0 kept.now)) }
{
    for (number, own) in kept.iter().enumerate() {
        write_piece(text, out)?;
        push_resting_row(text, number, own)?;
    }
    Ok(())
}

// Adds the end of the boxes, and the rows of the stale writes after their name.
fn write_stale<O: Sink>(text: &mut Vec<u8>, kept: &[Resting], out: &mut O) -> Result<(), PastErr>
    requires { O.broken out.old ≡ false }
    ensures ok { OnOk result (Buffered (O.written out.old) (O.written out.new) text.new.items (text.old.items ++ (stale_head ++ rows_from resting_row 0 kept.now))) }
    ensures works { OnOk result (O.broken out.new ≡ false) }
    ensures fails { IfErr result (λ e. Stops e (writer_of (O.written out.old) (O.written out.new) (O.broken out.new)) (text.old.items ++ (stale_head ++ rows_from resting_row 0 kept.now))) }
{
    push_words(text, b"\n],\"stale\":[")?;
    write_stale_rows(text, kept, out)
}

/// Writes the data of a run's picture in a frame, 64 KiB and a row at a time at most.
///
/// # Errors
/// Out of memory, or the writer failed; then a prefix was written at most.
pub fn write_data<O: Sink>(
    alloc: Global,
    view: View<'_>,
    frame: &Frame,
    out: &mut O,
) -> Result<(), PastErr>
    requires works { O.broken out.old ≡ false }
    requires of_trace { IsOfPicture view.fitted.now.recorded view.picture.now }
    requires drawn { AreDrawn view.fitted.now (view.picture.now).boxes.items view.drawn.now }
    ensures ok { OnOk result
        (Appends (O.written out.old) (O.written out.new)
        ((frame.now).before.items
        ++ (run_data_rows view.entry.fitted.now view.entry.near.now view.entry.picture.now view.entry.drawn.now view.entry.kept.now
        ++ (frame.now).after.items))) }
    ensures works { OnOk result (O.broken out.new ≡ false) }
    ensures fails { IfErr result
        (λ e. Stops e (writer_of (O.written out.old) (O.written out.new) (O.broken out.new))
        ((frame.now).before.items
        ++ (run_data_rows view.entry.fitted.now view.entry.near.now view.entry.picture.now view.entry.drawn.now view.entry.kept.now
        ++ (frame.now).after.items))) }
{
    let trace = view.fitted.trace();
    let mut text = data_head(
        alloc,
        true,
        trace,
        view.near,
        &view.picture.ends,
        &frame.before,
    )?;
    write_box_rows(alloc, &mut text, view.fitted, view.drawn, out)?;
    write_stale(&mut text, view.kept, out)?;
    write_last(&mut text, &frame.after, out)
}
