//! The first outcome of a guest that another guest doesn't have.

ghost use Rattle.std.specs.Prelude.{◌≡◌, length, option_map, IfOk};
ghost use Rattle.std.specs.String.{string_bytes};
ghost use Rattle.ir_explore.specs.Texts.{known_of};
ghost use Rattle.ir_within.specs.Outside.{IsFirstMark, IsListOfFirst};

use ir_order::list_of_items;
use ir_outcomes::Explored;
use std::alloc::{AllocError, Global};

// The first place that is marked, if some is.
fn first_marked(marks: &[bool]) -> Option<usize>
    ensures { IsFirstMark marks.now result }
{
    for i in 0..marks.len() {
        if marks[i] {
            return Some(i);
        }
    }
    None
}

/// The list of the first outcome that is outside, if some is.
///
/// # Errors
/// Out of memory.
pub fn first_list(
    alloc: Global,
    explored: &Explored<'_>,
    outside: &[bool],
) -> Result<Option<String>, AllocError>
    requires { length outside.now ≡ length explored.now.outcomes.items }
    ensures { IfOk result (λ list. IsListOfFirst (known_of explored.now) outside.now (option_map string_bytes list)) }
{
    let outcomes = explored.outcomes.as_slice();
    match first_marked(outside) {
        Some(place) => {
            let list = list_of_items(alloc, outcomes[place].turns.as_slice())?;
            Ok(Some(list))
        }
        None => Ok(None),
    }
}
