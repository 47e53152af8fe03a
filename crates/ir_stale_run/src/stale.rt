//! Whether a write of a run rests on a stale read.

ghost use Rattle.std.specs.Prelude.{IfOk};
ghost use Rattle.ir_stale_run.specs.Stale.{HasRests};

use crate::lines::kept_of;
use crate::walk::rests;
use ir_fit::Fitted;
use ir_past::stale_writes;
use std::alloc::{AllocError, Global};

/// Whether one of a fitted trace's stale writes rests on its read. It takes the time and memory of `rests`.
///
/// # Errors
/// Out of memory.
pub fn has_rests(alloc: Global, fitted: &Fitted) -> Result<bool, AllocError>
    ensures { IfOk result (HasRests fitted.now) }
{
    fitted.known();
    let rows = stale_writes(alloc, fitted.trace())?;
    let found = rests(alloc, fitted, &rows)?;
    Ok(kept_of(&found) > 0)
}
