//! The picture of a trace.

ghost use Rattle.std.specs.Prelude.{IfOk, MatchResult};
ghost use Rattle.ir_past.specs.Answers.{AreCoherent};
ghost use Rattle.ir_picture.specs.Needs.{HasNoCircle, IsCircleAt};
ghost use Rattle.ir_picture.specs.Answers.{IsThereIn, IsPicture};

use crate::around::{shown_boxes, shown_stale};
use crate::asked::Around;
use crate::circle::Circle;
use crate::picture::Picture;
use crate::placing::Placing;
use ir_past::stale_writes;
use ir_trace::Trace;
use std::alloc::{AllocError, Global};

/// The picture of a coherent trace, or of the part that is asked for; or where its events need each other in a circle.
///
/// # Errors
/// Out of memory.
pub fn picture_of(
    alloc: Global,
    trace: &Trace,
    near: &Option<Around>,
) -> Result<Result<Picture, Circle>, AllocError>
    requires coherent { AreCoherent trace.now }
    requires there { IsThereIn trace.now near.now }
    ensures { IfOk result (λ x. MatchResult x (λ p. HasNoCircle trace.now × IsPicture trace.now near.now p) (λ c. IsCircleAt trace.now c.thread c.event)) }
{
    let mut placing = Placing::new(alloc, trace)?;
    placing.place_all(trace)?;
    if let Some(circle) = placing.circle(trace) {
        return Ok(Err(circle));
    }
    let ends = placing.ends(alloc)?;
    let boxes = shown_boxes(alloc, placing.boxes(), near)?;
    let rows = stale_writes(alloc, trace)?;
    let stale = shown_stale(alloc, &boxes, &rows)?;
    Ok(Ok(Picture { boxes, ends, stale }))
}
