//! Items with turn boundaries taken.

ghost use Rattle.std.specs.Prelude.{◌≡◌, ◌<◌, drop, length, IfOk};
ghost use Rattle.ir_shrink.specs.Shrinking.{endless_at, without};

use ir_record::Item;
use std::alloc::{AllocError, Global};

// The items behind so many.
fn behind(items: &[Item], place: usize) -> &[Item]
    ensures { result.now ≡ drop place items.now }
{
    if place >= items.len() {
        return &[];
    }
    &items[place..]
}

/// Items without so many of them from a place on.
///
/// # Errors
/// Out of memory.
pub fn without(
    alloc: Global,
    items: &[Item],
    place: usize,
    count: usize,
) -> Result<Vec<Item>, AllocError>
    requires { place < length items.now }
    ensures { IfOk result (λ v. v.items ≡ without place count items.now) }
{
    let mut left = Vec::with_capacity(alloc, items.len())?;
    left.extend_from_slice(&items[..place])?;
    left.extend_from_slice(behind(items, place.saturating_add(count)))?;
    Ok(left)
}

/// The item at a place with endless turns, without so many items after it.
///
/// # Errors
/// Out of memory.
pub fn endless_at(
    alloc: Global,
    items: &[Item],
    endless: u64,
    place: usize,
    count: usize,
) -> Result<Vec<Item>, AllocError>
    requires { place < length items.now }
    ensures { IfOk result (λ v. v.items ≡ endless_at endless place count items.now) }
{
    let mut left = Vec::with_capacity(alloc, items.len())?;
    left.extend_from_slice(&items[..place])?;
    let item = items[place];
    left.push(Item {
        count: endless,
        ..item
    })?;
    left.extend_from_slice(behind(items, (place + 1).saturating_add(count)))?;
    Ok(left)
}
