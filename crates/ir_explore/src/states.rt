//! The states of outcomes.

ghost use Rattle.std.specs.Prelude.{◌≡◌, ◌<◌, Some, length, slice_get, IfOk};
ghost use Rattle.ir_flat.specs.Flat.{IsFlat};

use ir_outcomes::Shown;
use ir_state_store::{SourcedFlat, Store};
use std::alloc::AllocError;

/// The state of an outcome.
///
/// # Errors
/// Out of memory.
pub fn state_of<'a>(flats: &Store<'a>, shown: &Shown) -> Result<SourcedFlat<'a>, AllocError>
    requires { shown.now.node < length flats.now.items }
    ensures value { IfOk result (λ s. slice_get flats.now.items shown.now.node ≡ Some s) }
    ensures flat { IfOk result (λ s. IsFlat s.flat) }
{
    flats.get(shown.node)
}
