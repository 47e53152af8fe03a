//! A picture of a run as events for other viewers.

ghost use Rattle.std.specs.Prelude.{◌≡◌, ◌++◌, ℕ, Some, IfOk, IfErr, OnOk, false};
ghost use Rattle.std.specs.List.{slice_get};
ghost use Rattle.ir_files.specs.Writers.{writer_of};
ghost use Rattle.ir_text.specs.Buffered.{Buffered};
ghost use Rattle.ir_past.specs.Past.{IsRising};
ghost use Rattle.ir_past.specs.Answers.{AreCoherent, Answered, NotAnswered, Stops};
ghost use Rattle.ir_picture.specs.Boxes.{IsBox};
ghost use Rattle.ir_picture.specs.Progress.{IsOfPicture};
ghost use Rattle.ir_run_picture.specs.Answers.{IsRunChromeAnswer};
ghost use Rattle.ir_run_picture.specs.Chrome.{drawn_slices};
ghost use Rattle.ir_run_picture.specs.Resting.{stale_of_rests};
ghost use Rattle.ir_run_picture.specs.declared.drawn.Drawn.{Drawn};

use crate::drawing::all_drawn;
use crate::drawn::Drawn;
use crate::run_picture::RunPicture;
use crate::slices::push_slice;
use ir_files::ExitStatus;
use ir_fit::Fitted;
use ir_past::PastErr;
use ir_picture::{
    Around, chrome_end, chrome_head, sights_of, write_arrows, write_last, write_piece,
};
use ir_stream::Sink;
use std::alloc::Global;

// Adds the lines of boxes to a text that is written in pieces.
fn write_slices<O: Sink>(
    alloc: Global,
    text: &mut Vec<u8>,
    fitted: &Fitted,
    shown: &RunPicture,
    drawn: &[Drawn],
    out: &mut O,
) -> Result<(), PastErr>
    requires works { O.broken out.old ≡ false }
    requires boxes { (k : ℕ) (d : Drawn) → slice_get drawn.now k ≡ Some d → IsBox fitted.now.recorded d.own.events }
    requires rising { IsRising (shown.now).picture.stale.items }
    requires kept { (shown.now).picture.stale.items ≡ stale_of_rests (shown.now).kept.items }
    ensures ok { OnOk result (Buffered (O.written out.old) (O.written out.new) text.new.items (text.old.items ++ drawn_slices fitted.now (shown.now).kept.items drawn.now)) }
    ensures works { OnOk result (O.broken out.new ≡ false) }
    ensures fails { IfErr result (λ e. Stops e (writer_of (O.written out.old) (O.written out.new) (O.broken out.new)) (text.old.items ++ drawn_slices fitted.now (shown.now).kept.items drawn.now)) }
{
    for own in drawn {
        write_piece(text, out)?;
        push_slice(alloc, text, fitted, shown, own)?;
    }
    Ok(())
}

/// Writes a picture of a run as events for other viewers, 64 KiB and a line at a time at most. All that is in them is found before the first
/// are written.
///
/// # Errors
/// Out of memory, or the writer failed; then a prefix was written at most.
pub fn write_chrome<O: Sink>(
    alloc: Global,
    fitted: &Fitted,
    near: &Option<Around>,
    shown: &RunPicture,
    out: &mut O,
) -> Result<ExitStatus, PastErr>
    requires works { O.broken out.old ≡ false }
    requires coherent { AreCoherent fitted.now.recorded }
    requires of_trace { IsOfPicture fitted.now.recorded (shown.now).picture }
    requires kept { (shown.now).picture.stale.items ≡ stale_of_rests (shown.now).kept.items }
    ensures ok { IfOk result
        (λ s. Answered (IsRunChromeAnswer fitted.now near.now (shown.now).picture (shown.now).kept.items) s
        (writer_of (O.written out.old) (O.written out.new) (O.broken out.new))) }
    ensures fails { IfErr result
        (λ e. NotAnswered (IsRunChromeAnswer fitted.now near.now (shown.now).picture (shown.now).kept.items) e
        (writer_of (O.written out.old) (O.written out.new) (O.broken out.new))) }
{
    let trace = fitted.trace();
    let boxes = &shown.picture.boxes;
    let drawn = all_drawn(alloc, fitted, boxes)?;
    let sights = sights_of(alloc, trace, boxes)?;
    let mut text = chrome_head(alloc, trace, near, &shown.picture.ends)?;
    write_slices(alloc, &mut text, fitted, shown, &drawn, out)?;
    write_arrows(&mut text, &sights, out)?;
    write_last(&mut text, chrome_end().as_bytes(), out)?;
    Ok(ExitStatus::Done)
}
