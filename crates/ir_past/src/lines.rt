//! The lines of `ir stale`.

ghost use Rattle.std.specs.Prelude.{◌≡◌, IfOk};
ghost use Rattle.std.specs.String.{string_bytes};
ghost use Rattle.ir_past.specs.Lines.{count_line, write_part, read_part, over_part, row_line};

use crate::naming::place_text;
use crate::stale_write::StaleWrite;
use std::alloc::{AllocError, Global};

/// The first line: how many writes are stale, of how many write entries.
pub fn count_line(alloc: Global, stale: usize, writes: usize) -> Result<String, AllocError>
    ensures { IfOk result (λ s. string_bytes s ≡ count_line stale writes) }
{
    format!(in alloc; "stale {stale} of {writes}\n")
}

// The stale write of a row.
fn write_part(alloc: Global, row: &StaleWrite) -> Result<String, AllocError>
    ensures { IfOk result (λ s. string_bytes s ≡ write_part row.now) }
{
    let StaleWrite {
        thread,
        event,
        object,
        written,
        ..
    } = *row;
    format!(in alloc; "thread {thread} event {event} write {object} version {written}")
}

// The read of a row.
fn read_part(alloc: Global, row: &StaleWrite) -> Result<String, AllocError>
    ensures { IfOk result (λ s. string_bytes s ≡ read_part row.now) }
{
    let StaleWrite { read, version, .. } = *row;
    format!(in alloc; " read event {read} version {version}")
}

// What wrote over the read of a row, and the line's end.
fn over_part(alloc: Global, row: &StaleWrite) -> Result<String, AllocError>
    ensures { IfOk result (λ s. string_bytes s ≡ over_part row.now) }
{
    let place = place_text(alloc, &row.overwritten_by)?;
    format!(in alloc; " overwritten by {place}\n")
}

/// The line of a row.
pub fn row_line(alloc: Global, row: &StaleWrite) -> Result<String, AllocError>
    ensures { IfOk result (λ s. string_bytes s ≡ row_line row.now) }
{
    let write = write_part(alloc, row)?;
    let read = read_part(alloc, row)?;
    let over = over_part(alloc, row)?;
    format!(in alloc; "{write}{read}{over}")
}
