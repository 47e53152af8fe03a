//! The stale writes that are shown: those that rest on what was read.

ghost use Rattle.std.specs.Prelude.{◌≡◌, ◌++◌, Some, length, IfOk, OnOk};
ghost use Rattle.ir_picture.specs.Boxing.{AreBoxesApart};
ghost use Rattle.ir_picture.specs.Placing.{events_of_all};
ghost use Rattle.ir_run_picture.specs.Resting.{kept_if, first_resting, resting_writes, stale_of_rests};

use crate::resting::Resting;
use ir_past::StaleWrite;
use ir_picture::{PlacedBox, is_shown};
use ir_stale_run::Rest;
use std::alloc::{AllocError, Global};

// Adds a stale write, if it rests on its read and is shown where these boxes are.
fn keep(
    kept: &mut Vec<Resting>,
    boxes: &[PlacedBox],
    row: &StaleWrite,
    rest: &Option<Rest>,
) -> Result<(), AllocError>
    requires apart { AreBoxesApart (events_of_all boxes.now) }
    ensures { OnOk result (kept.new.items ≡ kept.old.items ++ kept_if boxes.now (Some row.now) rest.now) }
{
    let Some(rest) = rest else {
        return Ok(());
    };
    if is_shown(boxes, row) {
        kept.push(Resting {
            write: *row,
            rest: *rest,
        })?;
    }
    Ok(())
}

/// Of these stale writes those that rest on their reads and are shown where these boxes are.
///
/// # Errors
/// Out of memory.
pub fn resting_writes(
    alloc: Global,
    boxes: &[PlacedBox],
    rows: &[StaleWrite],
    rests: &[Option<Rest>],
) -> Result<Vec<Resting>, AllocError>
    requires apart { AreBoxesApart (events_of_all boxes.now) }
    requires size { length rests.now ≡ length rows.now }
    ensures { IfOk result (λ v. v.items ≡ resting_writes boxes.now rows.now rests.now) }
{
    let mut kept = Vec::new(alloc);
    for i in 0..rows.len() {
        keep(&mut kept, boxes, &rows[i], &rests[i])?;
    }
    Ok(kept)
}

/// The stale writes alone.
///
/// # Errors
/// Out of memory.
pub fn writes_of(alloc: Global, kept: &[Resting]) -> Result<Vec<StaleWrite>, AllocError>
    ensures { IfOk result (λ v. v.items ≡ stale_of_rests kept.now) }
{
    let mut writes = Vec::new(alloc);
    for own in kept {
        writes.push(own.write)?;
    }
    Ok(writes)
}
