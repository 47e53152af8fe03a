//! The lines of `ir who` with an image.

ghost use Rattle.std.specs.Prelude.{◌≡◌, ◌++◌, ℕ, slice_get, Some, IfOk, OnOk};
ghost use Rattle.std.specs.String.{string_bytes};
ghost use Rattle.ir_past.specs.declared.place.Place as place;
ghost use Rattle.ir_opened.specs.Positions.{IsInside};
ghost use Rattle.ir_who.specs.FitLines.{dated_line, dated_text, step_place, fit_read_line, fit_read_lines, fit_over_line, fit_version_text};

use crate::dated::Dated;
use crate::lines::object_line;
use ir_fit::Fitted;
use ir_opened::{step_of, step_text};
use ir_past::{Place, maker_text, place_text};
use std::alloc::{AllocError, Global};

// The line of a version.
fn dated_line(alloc: Global, number: usize, dated: &Dated) -> Result<String, AllocError>
    ensures { IfOk result (λ s. string_bytes s ≡ dated_line number dated.now) }
{
    let maker = maker_text(alloc, &dated.version.made_by)?;
    let step = step_text(alloc, dated.step)?;
    let readers = dated.version.readers;
    format!(in alloc; "version {number} by {maker}{step} readers {readers}\n")
}

/// The lines of an object.
///
/// # Errors
/// Out of memory.
pub fn dated_text(alloc: Global, object: u8, rows: &[Dated]) -> Result<String, AllocError>
    ensures { IfOk result (λ s. string_bytes s ≡ dated_text object rows.now) }
{
    let mut text = object_line(alloc, object, rows.len())?;
    for (number, row) in rows.iter().enumerate() {
        text.push_str(dated_line(alloc, number, row)?.as_str())?;
    }
    Ok(text)
}

// An event with its step.
fn step_place(alloc: Global, fitted: &Fitted, place: &Place) -> Result<String, AllocError>
    requires { IsInside fitted.now place.now.thread place.now.event }
    ensures { IfOk result (λ s. string_bytes s ≡ step_place fitted.now place.now) }
{
    let step = step_of(fitted, *place);
    let place = place_text(alloc, place)?;
    format!(in alloc; "{place} step {step}")
}

// The line of a read entry.
fn read_line(alloc: Global, fitted: &Fitted, place: &Place) -> Result<String, AllocError>
    requires { IsInside fitted.now place.now.thread place.now.event }
    ensures { IfOk result (λ s. string_bytes s ≡ fit_read_line fitted.now place.now) }
{
    let place = step_place(alloc, fitted, place)?;
    format!(in alloc; "read {place}\n")
}

// Adds the lines of read entries.
fn push_reads(
    alloc: Global,
    fitted: &Fitted,
    text: &mut String,
    places: &[Place],
) -> Result<(), AllocError>
    requires { (k : ℕ) (p : place.Place) → slice_get places.now k ≡ Some p → IsInside fitted.now p.thread p.event }
    ensures { OnOk result (string_bytes text.new ≡ string_bytes text.old ++ fit_read_lines fitted.now places.now) }
{
    for place in places {
        text.push_str(read_line(alloc, fitted, place)?.as_str())?;
    }
    Ok(())
}

// The line of what wrote over a version.
fn over_line(alloc: Global, fitted: &Fitted, over: &Option<Place>) -> Result<String, AllocError>
    requires { (p : place.Place) → over.now ≡ Some p → IsInside fitted.now p.thread p.event }
    ensures { IfOk result (λ s. string_bytes s ≡ fit_over_line fitted.now over.now) }
{
    match over {
        Some(place) => {
            let place = step_place(alloc, fitted, place)?;
            format!(in alloc; "overwritten by {place}\n")
        }
        None => format!(in alloc; "last\n"),
    }
}

/// The lines of a version of a run: what made it, its read entries, and what wrote over it.
///
/// # Errors
/// Out of memory.
pub fn version_text(
    alloc: Global,
    fitted: &Fitted,
    number: usize,
    dated: &Dated,
    readers: &[Place],
    over: &Option<Place>,
) -> Result<String, AllocError>
    requires read { (k : ℕ) (p : place.Place) → slice_get readers.now k ≡ Some p → IsInside fitted.now p.thread p.event }
    requires over { (p : place.Place) → over.now ≡ Some p → IsInside fitted.now p.thread p.event }
    ensures { IfOk result (λ s. string_bytes s ≡ fit_version_text fitted.now number dated.now readers.now over.now) }
{
    let mut text = dated_line(alloc, number, dated)?;
    push_reads(alloc, fitted, &mut text, readers)?;
    text.push_str(over_line(alloc, fitted, over)?.as_str())?;
    Ok(text)
}
