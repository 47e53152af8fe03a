//! `ir view` with an image: a picture of a run, in the form and of the part that is asked for.

ghost use Rattle.std.specs.Prelude.{◌≡◌, IfOk, IfErr, true, false};
ghost use Rattle.ir_files.specs.Writers.{writer_of};
ghost use Rattle.ir_past.specs.Answers.{AreCoherent, Answered, NotAnswered};
ghost use Rattle.ir_past.specs.Replies.{IsUnsaid, is_of_answer};
ghost use Rattle.ir_picture.specs.Progress.{IsOfPicture};
ghost use Rattle.ir_picture.specs.declared.asked.Form.TheVariants as form;
ghost use Rattle.ir_run_picture.specs.Answers.{IsFormOfRun, IsRunTold, LacksAroundIn};
ghost use Rattle.ir_run_picture.specs.Resting.{stale_of_rests};

use crate::chrome::write_chrome;
use crate::data::write_data;
use crate::drawing::all_drawn;
use crate::pictures::run_picture_of;
use crate::run_picture::RunPicture;
use crate::view::View;
use ir_files::ExitStatus;
use ir_fit::Fitted;
use ir_opened::RunQuestion;
use ir_past::{AskErr, PastErr, Printed, put_answer};
use ir_picture::{Around, Asked, Form, MOST_BOXES, data_frame, many_answer, page_frame};
use ir_stream::Sink;
use std::alloc::{AllocError, Global};

// Writes a picture of a run as a page, if it has no more boxes than that may have.
fn write_page<O: Sink>(
    alloc: Global,
    fitted: &Fitted,
    near: &Option<Around>,
    shown: &RunPicture,
    out: &mut O,
) -> Result<ExitStatus, PastErr>
    requires works { O.broken out.old ≡ false }
    requires of_trace { IsOfPicture fitted.now.recorded (shown.now).picture }
    ensures ok { IfOk result
        (λ s. Answered (IsFormOfRun form.Page fitted.now near.now (shown.now).picture (shown.now).kept.items) s
        (writer_of (O.written out.old) (O.written out.new) (O.broken out.new))) }
    ensures fails { IfErr result
        (λ e. NotAnswered (IsFormOfRun form.Page fitted.now near.now (shown.now).picture (shown.now).kept.items) e
        (writer_of (O.written out.old) (O.written out.new) (O.broken out.new))) }
{
    let RunPicture { picture, kept } = shown;
    if picture.boxes.len() > MOST_BOXES {
        return put_answer(&many_answer(alloc, picture.boxes.len())?, out);
    }
    let drawn = all_drawn(alloc, fitted, &picture.boxes)?;
    let frame = page_frame(alloc)?;
    let view = View {
        fitted,
        near,
        picture,
        drawn: &drawn,
        kept,
    };
    write_data(alloc, view, &frame, out)?;
    Ok(ExitStatus::Done)
}

// Writes the data of a picture of a run.
fn write_plain<O: Sink>(
    alloc: Global,
    fitted: &Fitted,
    near: &Option<Around>,
    shown: &RunPicture,
    out: &mut O,
) -> Result<ExitStatus, PastErr>
    requires works { O.broken out.old ≡ false }
    requires of_trace { IsOfPicture fitted.now.recorded (shown.now).picture }
    ensures ok { IfOk result
        (λ s. Answered (IsFormOfRun form.Data fitted.now near.now (shown.now).picture (shown.now).kept.items) s
        (writer_of (O.written out.old) (O.written out.new) (O.broken out.new))) }
    ensures fails { IfErr result
        (λ e. NotAnswered (IsFormOfRun form.Data fitted.now near.now (shown.now).picture (shown.now).kept.items) e
        (writer_of (O.written out.old) (O.written out.new) (O.broken out.new))) }
{
    let RunPicture { picture, kept } = shown;
    let drawn = all_drawn(alloc, fitted, &picture.boxes)?;
    let frame = data_frame(alloc)?;
    let view = View {
        fitted,
        near,
        picture,
        drawn: &drawn,
        kept,
    };
    write_data(alloc, view, &frame, out)?;
    Ok(ExitStatus::Done)
}

// Writes a picture of a run in the form that is asked for.
fn show_picture<O: Sink>(
    alloc: Global,
    fitted: &Fitted,
    asked: &Asked,
    shown: &RunPicture,
    out: &mut O,
) -> Result<ExitStatus, PastErr>
    requires works { O.broken out.old ≡ false }
    requires coherent { AreCoherent fitted.now.recorded }
    requires of_trace { IsOfPicture fitted.now.recorded (shown.now).picture }
    requires kept { (shown.now).picture.stale.items ≡ stale_of_rests (shown.now).kept.items }
    ensures ok { IfOk result
        (λ s. Answered (IsFormOfRun (asked.now).form fitted.now (asked.now).around (shown.now).picture (shown.now).kept.items) s
        (writer_of (O.written out.old) (O.written out.new) (O.broken out.new))) }
    ensures fails { IfErr result
        (λ e. NotAnswered (IsFormOfRun (asked.now).form fitted.now (asked.now).around (shown.now).picture (shown.now).kept.items) e
        (writer_of (O.written out.old) (O.written out.new) (O.broken out.new))) }
{
    match asked.form {
        Form::Page => write_page(alloc, fitted, &asked.around, shown, out),
        Form::Data => write_plain(alloc, fitted, &asked.around, shown, out),
        Form::Chrome => write_chrome(alloc, fitted, &asked.around, shown, out),
    }
}

// Writes the answer about a run.
fn show_run<O: Sink>(
    alloc: Global,
    fitted: &Fitted,
    asked: &Asked,
    out: &mut O,
) -> Result<ExitStatus, AskErr>
    requires { O.broken out.old ≡ false }
    ensures ok { IfOk result (λ s. Answered (IsRunTold asked.now fitted.now) s (writer_of (O.written out.old) (O.written out.new) (O.broken out.new))) }
    ensures fails { IfErr result (λ e. IsUnsaid (IsRunTold asked.now fitted.now) (LacksAroundIn asked.now fitted.now) e (writer_of (O.written out.old) (O.written out.new) (O.broken out.new))) }
    ensures status { IfOk result (λ s. is_of_answer s ≡ true) }
{
    fitted.known();
    let shown = run_picture_of(alloc, fitted, asked)?;
    Ok(show_picture(alloc, fitted, asked, &shown, out)?)
}

/// What is asked of a picture, of a run: its boxes have the steps of the run, and its stale writes are those that rest on what was read. Nothing is
/// written before all is judged.
#[derive(Clone, Copy, Debug)]
pub struct RunView<'a> {
    /// The form, and the part.
    pub asked: &'a Asked,
}

impl<'a> RunQuestion for RunView<'a> {
    ghost is_answer = { λ view. IsRunTold view.asked.now };

    ghost is_absent = { λ view. LacksAroundIn view.asked.now };

    fn print<O: Sink>(&self, alloc: Global, fitted: &Fitted, out: &mut O) -> Printed {
        show_run(alloc, fitted, self.asked, out)
    }
}
