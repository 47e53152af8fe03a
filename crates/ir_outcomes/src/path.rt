//! How a search came to a node.

ghost use Rattle.std.specs.Prelude.{◌≡◌, ℕ, Bool, List, suc, ◌<◌, ◌≤◌, Some, length, slice_get, IfOk};
ghost use Rattle.ir_search.specs.declared.origin.Origin.{Origin};
ghost use Rattle.ir_search.specs.Origins.{AreWaysUnder};
ghost use Rattle.ir_outcomes.specs.Path.{FallInLevel, IsPathTo, ways_of};

use ir_search::{Origin, Refusal};
use std::alloc::{AllocError, Global};

/// The turns that led to a node, the last first: one more at most than its level says.
///
/// # Errors
/// Out of memory.
pub fn path_to(alloc: Global, origins: &[Origin], node: usize) -> Result<Vec<Origin>, AllocError>
    requires within { node < length origins.now }
    requires falls { FallInLevel origins.now }
    ensures path { IfOk result (λ path. IsPathTo origins.now node path.items) }
    ensures few { IfOk result (λ path. (n : Origin) → slice_get origins.now node ≡ Some n → length path.items ≤ suc n.level) }
{
    let mut path = Vec::new(alloc);
    let mut at = node;
    'back: loop {
        let origin = origins[at];
        path.push(origin)?;
        if origin.level == 0 {
            return Ok(path);
        }
        at = origin.from as usize;
    }
}

/// The refused tries that the table has under a number, the last first.
///
/// # Errors
/// Out of memory.
pub fn refusals_to(
    alloc: Global,
    table: &[Refusal],
    number: usize,
) -> Result<Vec<Refusal>, AllocError>
    requires { (ways : List Bool) × AreWaysUnder table.now number ways }
    ensures { IfOk result (λ refusals. AreWaysUnder table.now number (ways_of refusals.items)) }
{
    let mut refusals = Vec::new(alloc);
    let mut left = number;
    'back: while left > 0 {
        let refusal = table[left - 1];
        refusals.push(refusal)?;
        left = refusal.before as usize;
    }
    Ok(refusals)
}
