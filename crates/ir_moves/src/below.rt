//! States that are kept in which a thread is below a position.

ghost use Rattle.std.specs.Prelude.{◌<◌, length, IfOk, IfSome};
ghost use Rattle.ir_weave.specs.Standing.{flat_in, positions};
ghost use Rattle.ir_moves.specs.Checkpoints.{AllStandAtStates, StandsAtState};
ghost use Rattle.ir_moves.specs.Below.{IsStateBelow};

use ir_checkpoint::{Keeper, MOST_CHECKPOINTS};
use ir_fit::Fitted;
use ir_replay::State;
use std::alloc::AllocError;

/// A state that is kept: its number, and the position in it of the thread that was asked for.
#[derive(Clone, Copy)]
pub struct Found {
    pub number: u32,
    pub position: u64,
}

// The kept state at a place, if thread t is below the position in it.
fn below_at(
    fitted: &Fitted,
    keeper: &Keeper,
    place: usize,
    t: usize,
    position: u64,
) -> Option<Found>
    requires kept { AllStandAtStates fitted.now keeper.now.kept }
    requires thread { t < length fitted.now.guest.entries }
    ensures { IfSome result (IsStateBelow keeper.now.kept t position) }
{
    let number = keeper.number_at(place)?;
    let cut = keeper.cut(number)?;
    let own = cut.position(t);
    if own >= position {
        return None;
    }
    Some(Found {
        number,
        position: own,
    })
}

/// Whether the thread is further on than in the best so far.
pub fn is_further(best: Option<Found>, found: Found) -> bool {
    match best {
        None => true,
        Some(best) => best.position < found.position,
    }
}

/// The state with the most steps of thread t, of those in which it is below the position.
pub fn last_below(fitted: &Fitted, keeper: &Keeper, t: usize, position: u64) -> Option<Found>
    requires kept { AllStandAtStates fitted.now keeper.now.kept }
    requires thread { t < length fitted.now.guest.entries }
    ensures { IfSome result (IsStateBelow keeper.now.kept t position) }
{
    let mut best: Option<Found> = None;
    for place in 0..MOST_CHECKPOINTS {
        if let Some(found) = below_at(fitted, keeper, place, t, position) {
            if is_further(best, found) {
                best = Some(found);
            }
        }
    }
    best
}

/// That state.
///
/// # Errors
/// Out of memory.
pub fn restore_found(
    fitted: &Fitted,
    keeper: &Keeper,
    t: usize,
    position: u64,
    found: Found,
) -> Result<State, AllocError>
    requires kept { AllStandAtStates fitted.now keeper.now.kept }
    requires below { IsStateBelow keeper.now.kept t position found }
    ensures stands { IfOk result (λ s. StandsAtState fitted.now s) }
    ensures below { IfOk result (λ s. positions (flat_in fitted.now s) t < position) }
{
    keeper.restore(found.number)
}
