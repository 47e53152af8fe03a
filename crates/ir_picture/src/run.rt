//! `ir view`: a picture of a trace, in the form and of the part that is asked for.

ghost use Rattle.std.specs.Prelude.{◌≡◌, IfOk, IfErr, OnOk, MatchResult, true, false};
ghost use Rattle.ir_files.specs.Writers.{writer_of};
ghost use Rattle.ir_files.specs.declared.exit_status.ExitStatus.TheVariants as status;
ghost use Rattle.ir_past.specs.Answers.{AreCoherent, Answered, NotAnswered};
ghost use Rattle.ir_past.specs.Replies.{IsTextless, is_of_answer};
ghost use Rattle.ir_picture.specs.Needs.{HasNoCircle, IsCircleAt};
ghost use Rattle.ir_picture.specs.Progress.{IsOfPicture};
ghost use Rattle.ir_picture.specs.Answers.{IsPicture, IsForm, IsThereIn, IsViewTold, LacksAround, circle_line, many_line};
ghost use Rattle.ir_picture.specs.declared.asked.Form.TheVariants as form;

use crate::around::is_there;
use crate::asked::{Around, Asked, Form};
use crate::chrome::write_chrome;
use crate::circle::Circle;
use crate::data::write_data;
use crate::frame::{data_frame, page_frame};
use crate::limits::MOST_BOXES;
use crate::picture::Picture;
use crate::pictures::picture_of;
use ir_files::ExitStatus;
use ir_past::{Answer, AskErr, PastErr, Printed, TraceQuestion, line_answer, put_answer};
use ir_stream::Sink;
use ir_trace::Trace;
use std::alloc::{AllocError, Global};

/// The answer that events need each other in a circle.
///
/// # Errors
/// Out of memory.
pub fn circle_answer(alloc: Global, circle: &Circle) -> Result<Answer, AllocError>
    ensures { IfOk result (λ a. (a.status ≡ status.NotFit) × (a.text.items ≡ circle_line (circle.now).thread (circle.now).event)) }
{
    let Circle { thread, event } = *circle;
    let line = format!(in alloc; "circle thread {thread} event {event}\n")?;
    line_answer(alloc, ExitStatus::NotFit, &line)
}

/// The answer that a page would have this many boxes.
///
/// # Errors
/// Out of memory.
pub fn many_answer(alloc: Global, count: usize) -> Result<Answer, AllocError>
    ensures { IfOk result (λ a. (a.status ≡ status.NotFit) × (a.text.items ≡ many_line count)) }
{
    let line = format!(in alloc; "too many boxes {count}\n")?;
    line_answer(alloc, ExitStatus::NotFit, &line)
}

// Writes a picture as a page, if it has no more boxes than that may have.
fn write_page<O: Sink>(
    alloc: Global,
    trace: &Trace,
    near: &Option<Around>,
    picture: &Picture,
    out: &mut O,
) -> Result<ExitStatus, PastErr>
    requires works { O.broken out.old ≡ false }
    requires of_trace { IsOfPicture trace.now picture.now }
    ensures ok { IfOk result (λ answered. Answered (IsForm form.Page trace.now near.now picture.now) answered (writer_of (O.written out.old) (O.written out.new) (O.broken out.new))) }
    ensures fails { IfErr result (λ e. NotAnswered (IsForm form.Page trace.now near.now picture.now) e (writer_of (O.written out.old) (O.written out.new) (O.broken out.new))) }
{
    if picture.boxes.len() > MOST_BOXES {
        return put_answer(&many_answer(alloc, picture.boxes.len())?, out);
    }
    let page = page_frame(alloc)?;
    write_data(alloc, trace, near, picture, &page, out)?;
    Ok(ExitStatus::Done)
}

// Writes the data of a picture.
fn write_plain<O: Sink>(
    alloc: Global,
    trace: &Trace,
    near: &Option<Around>,
    picture: &Picture,
    out: &mut O,
) -> Result<ExitStatus, PastErr>
    requires works { O.broken out.old ≡ false }
    requires of_trace { IsOfPicture trace.now picture.now }
    ensures ok { IfOk result (λ answered. Answered (IsForm form.Data trace.now near.now picture.now) answered (writer_of (O.written out.old) (O.written out.new) (O.broken out.new))) }
    ensures fails { IfErr result (λ e. NotAnswered (IsForm form.Data trace.now near.now picture.now) e (writer_of (O.written out.old) (O.written out.new) (O.broken out.new))) }
{
    let frame = data_frame(alloc)?;
    write_data(alloc, trace, near, picture, &frame, out)?;
    Ok(ExitStatus::Done)
}

// Writes a picture in the form that is asked for.
fn show_picture<O: Sink>(
    alloc: Global,
    trace: &Trace,
    asked: &Asked,
    picture: &Picture,
    out: &mut O,
) -> Result<ExitStatus, PastErr>
    requires works { O.broken out.old ≡ false }
    requires coherent { AreCoherent trace.now }
    requires of_trace { IsOfPicture trace.now picture.now }
    ensures ok { IfOk result (λ answered. Answered (IsForm (asked.now).form trace.now (asked.now).around picture.now) answered (writer_of (O.written out.old) (O.written out.new) (O.broken out.new))) }
    ensures fails { IfErr result (λ e. NotAnswered (IsForm (asked.now).form trace.now (asked.now).around picture.now) e (writer_of (O.written out.old) (O.written out.new) (O.broken out.new))) }
{
    match asked.form {
        Form::Page => write_page(alloc, trace, &asked.around, picture, out),
        Form::Data => write_plain(alloc, trace, &asked.around, picture, out),
        Form::Chrome => write_chrome(alloc, trace, &asked.around, picture, out),
    }
}

// The picture of a coherent trace, or the circle that its events go in.
fn judged(alloc: Global, trace: &Trace, asked: &Asked) -> Result<Result<Picture, Circle>, AskErr>
    requires { AreCoherent trace.now }
    ensures ok { IfOk result (λ x. MatchResult x (λ p. HasNoCircle trace.now × IsPicture trace.now (asked.now).around p) (λ c. IsCircleAt trace.now c.thread c.event)) }
    ensures there { OnOk result (IsThereIn trace.now (asked.now).around) }
    ensures fails { IfErr result (IsTextless (LacksAround asked.now trace.now)) }
{
    is_there(trace, &asked.around)?;
    Ok(picture_of(alloc, trace, &asked.around)?)
}

impl TraceQuestion for Asked {
    ghost is_answer = { IsViewTold };

    ghost is_absent = { LacksAround };

    fn print<O: Sink>(&self, alloc: Global, trace: &Trace, out: &mut O) -> Printed {
        match judged(alloc, trace, self)? {
            Err(circle) => Ok(put_answer(&circle_answer(alloc, &circle)?, out)?),
            Ok(picture) => Ok(show_picture(alloc, trace, self, &picture, out)?),
        }
    }
}
