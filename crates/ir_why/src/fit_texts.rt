//! All lines about an event of a run.

ghost use Rattle.std.specs.Prelude.{List, IfOk};
ghost use Rattle.ir_picture.specs.Boxes.{AreBoxes};
ghost use Rattle.ir_picture.specs.Placing.{events_of_all};
ghost use Rattle.ir_picture.specs.Places.{AreBoxesPlaced};
ghost use Rattle.ir_picture.specs.declared.placed_box.Point.{Point};
ghost use Rattle.ir_opened.specs.Positions.{IsInside};
ghost use Rattle.ir_why.specs.FitAnswers.{IsReasonIn};

use crate::fit_before::past_in;
use crate::fit_lines::{here_line, least_line, push_needs, push_waits};
use crate::leaves::{least_for, needs_of};
use crate::lines::past_line;
use crate::tables::tables_of;
use crate::waits::waits_of;
use ir_cut::Cut;
use ir_fit::Fitted;
use ir_past::Place;
use ir_picture::PlacedBox;
use std::alloc::{AllocError, Global};

/// The lines about an event of a run whose boxes these are, with at most this many waits, and a cut that is asked about.
///
/// # Errors
/// Out of memory.
pub fn reason_in(
    alloc: Global,
    fitted: &Fitted,
    here: Place,
    most: u32,
    at: &Option<Cut>,
    boxes: &[PlacedBox],
) -> Result<Vec<u8>, AllocError>
    requires inside { IsInside fitted.now here.thread here.event }
    requires boxes { AreBoxes fitted.now.recorded (events_of_all boxes.now) }
    ensures { IfOk result (λ text. (ends : List Point) → AreBoxesPlaced fitted.now.recorded boxes.now ends → IsReasonIn fitted.now here most at.now text.items) }
{
    fitted.known();
    let tables = tables_of(alloc, fitted.trace())?;
    let needs = needs_of(alloc, fitted, &tables, here)?;
    let least = least_for(alloc, fitted, here)?;
    let past = past_in(alloc, fitted, here, &least)?;
    let waits = waits_of(alloc, fitted, &tables, boxes, here, most)?;
    let mut text = here_line(alloc, fitted, here)?;
    push_needs(alloc, &mut text, at, &needs)?;
    text.extend_from_slice(past_line(alloc, &past)?.as_bytes())?;
    text.extend_from_slice(least_line(alloc, &least)?.as_bytes())?;
    push_waits(alloc, &mut text, &waits)?;
    Ok(text)
}
