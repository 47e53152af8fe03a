//! How an event is named in an answer.

ghost use Rattle.std.specs.Prelude.{◌≡◌, IfOk};
ghost use Rattle.std.specs.String.{string_bytes};
ghost use Rattle.ir_past.specs.Naming.{place_text, maker_text};

use crate::place::Place;
use std::alloc::{AllocError, Global};

/// An event by its thread and its place there.
///
/// # Errors
/// Out of memory.
pub fn place_text(alloc: Global, place: &Place) -> Result<String, AllocError>
    ensures { IfOk result (λ s. string_bytes s ≡ place_text place.now) }
{
    let Place { thread, event } = *place;
    format!(in alloc; "thread {thread} event {event}")
}

/// What made a version: a write entry, or an object's first words.
///
/// # Errors
/// Out of memory.
pub fn maker_text(alloc: Global, made_by: &Option<Place>) -> Result<String, AllocError>
    ensures { IfOk result (λ s. string_bytes s ≡ maker_text made_by.now) }
{
    match made_by {
        Some(place) => place_text(alloc, place),
        None => format!(in alloc; "first words"),
    }
}
