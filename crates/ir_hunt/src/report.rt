//! The lines of a hunt.

ghost use Rattle.std.specs.Prelude.{◌≡◌, ◌<◌, IfOk, MatchOption};
ghost use Rattle.std.specs.String.{string_bytes};
ghost use Rattle.ir_hunt.specs.Lines.{found_line, left_out_words, none_line, none_lines};

use ir_schedule::Seeds;
use std::alloc::{AllocError, Global};

/// The line of a seed that was found, with the list that spells its order.
pub fn found_line(alloc: Global, seed: u64, list: &str) -> Result<String, AllocError>
    ensures { IfOk result (λ s. string_bytes s ≡ found_line seed list.now) }
{
    format!(in alloc; "found seed {seed} order {list}\n")
}

// The line of a hunt that found none of the seeds from the first to the one that was tried last.
fn none_line(alloc: Global, first: u64, tried: u64) -> Result<String, AllocError>
    ensures { IfOk result (λ s. string_bytes s ≡ none_line first tried) }
{
    format!(in alloc; "none {first}..{tried}\n")
}

/// The lines of a hunt that found none of these seeds up to the one that was tried last.
pub fn none_lines(alloc: Global, seeds: Seeds, tried: u64) -> Result<String, AllocError>
    ensures { IfOk result (λ s. string_bytes s ≡ none_lines seeds.first tried seeds.last) }
{
    let mut lines = none_line(alloc, seeds.first, tried)?;
    if tried < seeds.last {
        lines.push_str("stopped seconds\n")?;
    }
    Ok(lines)
}

/// In words, how many seeds were left out, if any were.
pub fn left_out_words(alloc: Global, count: u128) -> Result<Option<String>, AllocError>
    ensures { IfOk result (λ o. MatchOption o (count ≡ 0) (λ words. (0 < count) × (string_bytes words ≡ left_out_words count))) }
{
    if count == 0 {
        return Ok(None);
    }
    Ok(Some(format!(in alloc;
        "seeds that were left out, since their runs have too many turns to be followed: {count}"
    )?))
}
