//! `ir why` with an image: what is asked about an event of a run, and its answer: the event, what it needs of other threads and where that is left,
//! how many other events of each thread are steps of the least consistent cut that has it, that cut, and the chain of waits that led to it, which
//! goes on from what a thread logged before it left the object that was waited for. Where positions are asked about, what is needed is met if
//! they are past the step that leaves it, else open.

ghost use Rattle.std.specs.Prelude.{◌≡◌, ◌⊎◌, IfOk, IfErr, true, false};
ghost use Rattle.ir_past.specs.Replies.{IsDoneWith, IsTextless};
ghost use Rattle.ir_past.specs.declared.absent.Absent.TheVariants as absent;
ghost use Rattle.ir_past.specs.declared.ask_err.AskErr.TheVariants as ask;
ghost use Rattle.ir_past.specs.declared.past_err.PastErr.TheVariants.{NoMem};
ghost use Rattle.ir_opened.specs.Positions.{IsInside};
ghost use Rattle.ir_why.specs.FitAnswers.{AreCuts, IsCutOfThreads, IsReasonIn, IsFitReason, LacksFitAsked, positions_asked};

use crate::fit_question::FitQuestion;
use crate::fit_texts::reason_in;
use crate::run::find;
use ir_cut::{Cut, consistent};
use ir_files::ExitStatus;
use ir_fit::Fitted;
use ir_opened::RunQuestion;
use ir_past::{Absent, AskErr, Place, Printed, put_bytes};
use ir_picture::{picture_of, runs_have_no_circle};
use ir_stream::Sink;
use std::alloc::{AllocError, Global};

// Whether there is a position for each thread, and they are a consistent cut.
fn is_cut(fitted: &Fitted, cut: &Cut) -> bool
    ensures is { result ≡ true → IsCutOfThreads fitted.now cut.now }
    ensures not { result ≡ false → IsCutOfThreads fitted.now cut.now → ⊥ }
{
    if cut.positions().len() != fitted.image().entries().len() {
        return false;
    }
    consistent(fitted, cut)
}

// The cut that is asked about, if one is.
fn cut_asked(alloc: Global, fitted: &Fitted, asked: &FitQuestion) -> Result<Option<Cut>, AskErr>
    ensures same { IfOk result (λ at. at ≡ positions_asked asked.now) }
    ensures cut { IfOk result (AreCuts fitted.now) }
    ensures fails { IfErr result (λ e. (e ≡ ask.Unwritten NoMem) ⊎ ((e ≡ ask.Absent absent.Cut) × (AreCuts fitted.now (positions_asked asked.now) → ⊥))) }
{
    let Some(positions) = &asked.at else {
        return Ok(None);
    };
    let cut = Cut::new(Vec::from_slice(alloc, positions.as_slice())?);
    if !is_cut(fitted, &cut) {
        return Err(AskErr::Absent(Absent::Cut));
    }
    Ok(Some(cut))
}

// The lines about an event of a run.
fn text_there(
    alloc: Global,
    fitted: &Fitted,
    here: Place,
    most: u32,
    at: &Option<Cut>,
) -> Result<Vec<u8>, AllocError>
    requires { IsInside fitted.now here.thread here.event }
    ensures { IfOk result (λ text. IsReasonIn fitted.now here most at.now text.items) }
{
    fitted.known();
    runs_have_no_circle();
    match picture_of(alloc, fitted.trace(), &None)? {
        Err(_) => unreachable!(),
        Ok(picture) => reason_in(alloc, fitted, here, most, at, &picture.boxes),
    }
}

// The lines about what is asked of a run.
fn text_asked(alloc: Global, fitted: &Fitted, asked: &FitQuestion) -> Result<Vec<u8>, AskErr>
    ensures ok { IfOk result (λ text. IsFitReason asked.now fitted.now text.items) }
    ensures fails { IfErr result (IsTextless (LacksFitAsked asked.now fitted.now)) }
{
    fitted.known();
    let here = find(fitted.trace(), &asked.what)?;
    let at = cut_asked(alloc, fitted, asked)?;
    Ok(text_there(alloc, fitted, here, asked.what.most, &at)?)
}

impl RunQuestion for FitQuestion {
    ghost is_answer = { λ asked f. IsDoneWith (IsFitReason asked f) };

    ghost is_absent = { LacksFitAsked };

    fn print<O: Sink>(&self, alloc: Global, fitted: &Fitted, out: &mut O) -> Printed {
        let text = text_asked(alloc, fitted, self)?;
        put_bytes(&text, out)?;
        Ok(ExitStatus::Done)
    }
}
