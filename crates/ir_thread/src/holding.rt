//! What a thread holds: a table with a place for each object.

ghost use Rattle.ir_thread.specs.State.{highest, is_above};
ghost use Rattle.std.specs.Prelude.{◌≡◌, ◌≤◌, length, IfOk};

use ir_image::MOST_OBJECTS;
use ir_runs::Access;
use std::alloc::{AllocError, Global};

/// The room of a thread's table: for the most objects, and a cache line more. Each entry and leave writes to it, so that the tables of two
/// threads have no line in common.
pub const HELD_ROOM: usize = MOST_OBJECTS as usize + 32;

// The same table, with that room.
pub fn roomy(alloc: Global, held: &[Option<Access>]) -> Result<Vec<Option<Access>>, AllocError>
    ensures { IfOk result (λ table. table.items ≡ held.now) }
{
    let mut table = Vec::with_capacity(alloc, HELD_ROOM)?;
    table.extend_from_slice(held)?;
    Ok(table)
}

// The greatest object that is held, and how.
pub fn highest(held: &[Option<Access>]) -> Option<(u8, Access)>
    requires { length held.now ≤ 256 }
    ensures { result ≡ highest held.now }
{
    let mut found = None;
    for (number, entry) in held.iter().enumerate() {
        if let Some(access) = *entry {
            found = Some((number as u8, access));
        }
    }
    found
}

// Whether neither this object is held nor a greater one.
#[inline(always)]
pub fn is_free_from(held: &[Option<Access>], object: u8) -> bool
    ensures { result ≡ is_above (highest held.now) object }
{
    for number in object as usize..held.len() {
        if held[number].is_some() {
            return false;
        }
    }
    true
}
