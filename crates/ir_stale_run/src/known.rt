//! What is found of all rows, before the walks and after them.

ghost use Rattle.std.specs.Prelude.{◌≡◌, ◌↔◌, map, replicate, Contains, IsTrue, IfOk, None};
ghost use Rattle.ir_stale_run.specs.WhatIf.{known};
ghost use Rattle.ir_stale_run.specs.declared.found.Found.TheVariants.{Unknown, Known};

use crate::found::Found;
use crate::rest::Rest;
use std::alloc::{AllocError, Global};

// Before the walks each row counts as one that rests on nothing.
pub fn none_found(alloc: Global, rows: usize) -> Result<Vec<Found>, AllocError>
    ensures { IfOk result (λ v. v.items ≡ replicate rows (Known None)) }
{
    vec![in alloc; Found::Known(None); rows]
}

// Whether a row is unknown.
pub fn has_unknown(found: &[Found]) -> bool
    ensures { IsTrue result ↔ Contains found.now Unknown }
{
    found.contains(&Found::Unknown)
}

// How a write rests on its read, as far as it is known.
fn known(found: Found) -> Option<Rest>
    ensures { result ≡ known found }
{
    match found {
        Found::Unknown => None,
        Found::Known(rest) => rest,
    }
}

// So of each row.
pub fn all_known(alloc: Global, found: &[Found]) -> Result<Vec<Option<Rest>>, AllocError>
    ensures { IfOk result (λ v. v.items ≡ map known found.now) }
{
    found.iter().copied().map(known).collect(alloc)
}
