//! Which outcome fulfils conditions.

ghost use Rattle.std.specs.Prelude.{◌≡◌, ℕ, ◌<◌, Some, None, length, map, slice_get, IfOk};
ghost use Rattle.std.specs.List.{list_all};
ghost use Rattle.ir_schedule.specs.Conditions.{as_condition, fulfils, end_state};
ghost use Rattle.ir_graph.specs.Reached.{AllReached};
ghost use Rattle.ir_graph.specs.Setup.{Setup};
ghost use Rattle.ir_outcomes.specs.declared.shown.Shown.{Shown};
ghost use Rattle.ir_explore.specs.Conditions.{OutcomesDecide, IsFirst};

use crate::states::state_of;
use ir_flat::Flat;
use ir_outcomes::Shown;
use ir_schedule::Condition;
use ir_state_store::Store;
use std::alloc::AllocError;

/// Whether a condition holds of threads and objects is decided by their outcome.
pub fn outcomes_decide()
    ensures { OutcomesDecide }
{}

// Whether what these threads and objects came to fulfils each condition.
fn fulfils(flat: &Flat<'_>, conditions: &[Condition<'_>]) -> bool
    ensures { result ≡ list_all (λ c. fulfils (as_condition c) (end_state flat.now)) conditions.now }
{
    conditions.iter().all(|condition| condition.holds(flat))
}

/// The first outcome that fulfils each condition.
///
/// # Errors
/// Out of memory.
pub fn first_fulfilling(
    flats: &Store<'_>,
    outcomes: &[Shown],
    conditions: &[Condition<'_>],
) -> Result<Option<usize>, AllocError>
    requires { (i : ℕ) (x : Shown) → slice_get outcomes.now i ≡ Some x → x.node < length flats.now.items }
    ensures { IfOk result (λ first. (setup : Setup) → AllReached setup flats.now.items → IsFirst setup.guest (map as_condition conditions.now) flats.now.items outcomes.now first) }
{
    for i in 0..outcomes.len() {
        let state = state_of(flats, &outcomes[i])?;
        if fulfils(&state.flat, conditions) {
            return Ok(Some(i));
        }
    }
    Ok(None)
}
