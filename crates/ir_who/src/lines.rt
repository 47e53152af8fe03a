//! The lines of `ir who`.

ghost use Rattle.std.specs.Prelude.{◌≡◌, IfOk};
ghost use Rattle.std.specs.String.{string_bytes};
ghost use Rattle.ir_who.specs.Lines.{version_line, object_line, read_line, over_line};

use crate::version::Version;
use ir_past::{Place, maker_text, place_text};
use std::alloc::{AllocError, Global};

/// The line of a version.
pub fn version_line(alloc: Global, number: usize, version: &Version) -> Result<String, AllocError>
    ensures { IfOk result (λ s. string_bytes s ≡ version_line number version.now) }
{
    let maker = maker_text(alloc, &version.made_by)?;
    let readers = version.readers;
    format!(in alloc; "version {number} by {maker} readers {readers}\n")
}

/// The first line of an object's versions: how many there are.
///
/// # Errors
/// Out of memory.
pub fn object_line(alloc: Global, object: u8, count: usize) -> Result<String, AllocError>
    ensures { IfOk result (λ s. string_bytes s ≡ object_line object count) }
{
    format!(in alloc; "object {object} versions {count}\n")
}

/// The line of a read entry.
pub fn read_line(alloc: Global, place: &Place) -> Result<String, AllocError>
    ensures { IfOk result (λ s. string_bytes s ≡ read_line place.now) }
{
    let place = place_text(alloc, place)?;
    format!(in alloc; "read {place}\n")
}

/// The line of what wrote over a version.
pub fn over_line(alloc: Global, over: &Option<Place>) -> Result<String, AllocError>
    ensures { IfOk result (λ s. string_bytes s ≡ over_line over.now) }
{
    match over {
        Some(place) => {
            let place = place_text(alloc, place)?;
            format!(in alloc; "overwritten by {place}\n")
        }
        None => format!(in alloc; "last\n"),
    }
}
