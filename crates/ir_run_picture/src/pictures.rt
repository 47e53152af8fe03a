//! The picture of a run.

ghost use Rattle.std.specs.Prelude.{IfOk, IfErr, OnOk};
ghost use Rattle.ir_past.specs.Answers.{AreCoherent};
ghost use Rattle.ir_opened.specs.Paired.{ArePaired};
ghost use Rattle.ir_picture.specs.Progress.{IsOfPicture};
ghost use Rattle.ir_picture.specs.Answers.{IsThereIn};
ghost use Rattle.ir_past.specs.Replies.{IsTextless};
ghost use Rattle.ir_run_picture.specs.Answers.{IsRunPicture, LacksAroundIn};
ghost use Rattle.ir_run_picture.specs.Brief.{AreRunBoxes};
ghost use Rattle.ir_run_picture.specs.Spans.{IsSpanOfBox};
ghost use Rattle.ir_run_picture.specs.Held.{HaveHeld};

use crate::folding::run_boxes_of;
use crate::keeping::{resting_writes, writes_of};
use crate::run_picture::RunPicture;
use crate::spans::spans_of;
use ir_fit::Fitted;
use ir_holds::{HeldBoxes, Span, held_boxes};
use ir_past::{AskErr, stale_writes};
use ir_picture::{Around, Asked, EventBox, Picture, is_there, shown_boxes};
use ir_stale_run::rests;
use std::alloc::{AllocError, Global};

// Boxes of a run that go so with their places and rows.
fn held_in(
    alloc: Global,
    fitted: &Fitted,
    events: &[EventBox],
    spans: &[Span],
) -> Result<HeldBoxes, AllocError>
    requires events { AreRunBoxes fitted.now events.now }
    requires go { ArePaired (IsSpanOfBox fitted.now) events.now spans.now }
    ensures { IfOk result (λ h. HaveHeld fitted.now h.boxes.items h.ends.items) }
{
    fitted.known();
    fitted.image().form();
    held_boxes(alloc, fitted.trace(), events, spans)
}

// From which step to which each of these boxes of a run goes.
fn run_spans_of(
    alloc: Global,
    fitted: &Fitted,
    events: &[EventBox],
) -> Result<Vec<Span>, AllocError>
    requires { AreRunBoxes fitted.now events.now }
    ensures { IfOk result (λ v. ArePaired (IsSpanOfBox fitted.now) events.now v.items) }
{
    spans_of(alloc, fitted, events)
}

// The boxes of a run with their places and rows.
fn held_of(alloc: Global, fitted: &Fitted) -> Result<HeldBoxes, AllocError>
    ensures { IfOk result (λ h. HaveHeld fitted.now h.boxes.items h.ends.items) }
{
    let events = run_boxes_of(alloc, fitted)?;
    let spans = run_spans_of(alloc, fitted, &events)?;
    held_in(alloc, fitted, &events, &spans)
}

// The picture of a run that has these boxes.
fn picture_of_held(
    alloc: Global,
    fitted: &Fitted,
    near: &Option<Around>,
    held: HeldBoxes,
) -> Result<RunPicture, AllocError>
    requires coherent { AreCoherent fitted.now.recorded }
    requires there { IsThereIn fitted.now.recorded near.now }
    requires held { HaveHeld fitted.now held.boxes.items held.ends.items }
    ensures drawn { IfOk result (λ x. IsRunPicture fitted.now near.now x.picture x.kept.items) }
    ensures of_trace { IfOk result (λ x. IsOfPicture fitted.now.recorded x.picture) }
{
    fitted.known();
    let HeldBoxes { boxes, ends } = held;
    let shown = shown_boxes(alloc, &boxes, near)?;
    let rows = stale_writes(alloc, fitted.trace())?;
    let found = rests(alloc, fitted, &rows)?;
    let kept = resting_writes(alloc, &shown, &rows, &found)?;
    let stale = writes_of(alloc, &kept)?;
    let picture = Picture {
        boxes: shown,
        ends,
        stale,
    };
    Ok(RunPicture { picture, kept })
}

/// The picture of a run, or of the part that is asked for.
///
/// # Errors
/// The run has no such event that the part could be around, or out of memory.
pub fn run_picture_of(alloc: Global, fitted: &Fitted, asked: &Asked) -> Result<RunPicture, AskErr>
    ensures drawn { IfOk result (λ x. IsRunPicture fitted.now (asked.now).around x.picture x.kept.items) }
    ensures of_trace { IfOk result (λ x. IsOfPicture fitted.now.recorded x.picture) }
    ensures there { OnOk result (IsThereIn fitted.now.recorded (asked.now).around) }
    ensures fails { IfErr result (IsTextless (LacksAroundIn asked.now fitted.now)) }
{
    fitted.known();
    is_there(fitted.trace(), &asked.around)?;
    let held = held_of(alloc, fitted)?;
    Ok(picture_of_held(alloc, fitted, &asked.around, held)?)
}
