//! The lines of a shrunk run.

ghost use Rattle.std.specs.Prelude.{◌≡◌, IfOk};
ghost use Rattle.std.specs.String.{string_bytes};
ghost use Rattle.ir_shrink.specs.Lines.{search_end_line, shrunk_lines};

use std::alloc::{AllocError, Global};

// How the search ended.
fn end_line(is_minimal: bool) -> &'static str
    ensures { result.now ≡ search_end_line is_minimal }
{
    if is_minimal {
        "minimal\n"
    } else {
        "stopped seconds\n"
    }
}

/// How many switches a run had and has, with the list that spells its order, and how the search ended.
///
/// # Errors
/// Out of memory.
pub fn shrunk_lines(
    alloc: Global,
    before: u64,
    after: u64,
    list: &str,
    is_minimal: bool,
) -> Result<String, AllocError>
    ensures { IfOk result (λ s. string_bytes s ≡ shrunk_lines before after list.now is_minimal) }
{
    let end = end_line(is_minimal);
    format!(in alloc; "shrunk {before} to {after} order {list}\n{end}")
}
