//! The answers of `ir who` as texts.

ghost use Rattle.std.specs.Prelude.{◌≡◌, ◌++◌, IfOk, OnOk};
ghost use Rattle.std.specs.String.{string_bytes};
ghost use Rattle.ir_who.specs.Lines.{versions_text, read_lines, version_text};

use crate::lines::{object_line, over_line, read_line, version_line};
use crate::version::Version;
use ir_past::Place;
use std::alloc::{AllocError, Global};

/// The lines of an object.
///
/// # Errors
/// Out of memory.
pub fn object_text(alloc: Global, object: u8, rows: &[Version]) -> Result<String, AllocError>
    ensures { IfOk result (λ s. string_bytes s ≡ versions_text object rows.now) }
{
    let mut text = object_line(alloc, object, rows.len())?;
    for (number, row) in rows.iter().enumerate() {
        text.push_str(version_line(alloc, number, row)?.as_str())?;
    }
    Ok(text)
}

// Adds the lines of read entries.
fn push_reads(alloc: Global, text: &mut String, places: &[Place]) -> Result<(), AllocError>
    ensures { OnOk result (string_bytes text.new ≡ string_bytes text.old ++ read_lines places.now) }
{
    for place in places {
        text.push_str(read_line(alloc, place)?.as_str())?;
    }
    Ok(())
}

/// The lines of a version: what made it, its read entries, and what wrote over it.
///
/// # Errors
/// Out of memory.
pub fn version_text(
    alloc: Global,
    number: usize,
    row: &Version,
    readers: &[Place],
    over: &Option<Place>,
) -> Result<String, AllocError>
    ensures { IfOk result (λ s. string_bytes s ≡ version_text number row.now readers.now over.now) }
{
    let mut text = version_line(alloc, number, row)?;
    push_reads(alloc, &mut text, readers)?;
    text.push_str(over_line(alloc, over)?.as_str())?;
    Ok(text)
}
