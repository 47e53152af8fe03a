//! All outcomes of a guest.

ghost use Rattle.std.specs.Prelude.{◌≡◌, ◌⊎◌, ◌≤◌, IfOk, IfErr};
ghost use Rattle.ir_search.specs.declared.stop.Stop.TheVariants.{Memory};
ghost use Rattle.ir_graph.specs.Stops.{IsStop};
ghost use Rattle.ir_outcomes.specs.Explored.{IsExplored};
ghost use Rattle.ir_thread.specs.State.{IsAllowed};

use crate::exploring::Exploring;
use crate::shown::Shown;
use ir_graph::{Bounds, Setup, States};
use ir_search::{Ended, Observer, Stop};
use std::alloc::Global;

/// What was found out about a guest.
#[derive(Drop)]
pub struct Explored<'a> {
    /// Its states, and how the search came to them.
    pub states: States<'a>,
    /// Its different outcomes, as many as were found and shown.
    pub outcomes: Vec<Shown>,
    /// Each outcome of a run with fewer switches is among them.
    pub levels: usize,
    /// How it ended: as the search did, if each outcome that was found is shown.
    pub ended: Ended,
    /// Of a finished search: how many of the states can't be brought to an end.
    pub hangs: usize,
    /// A run that leads to the first of them.
    pub hang: Option<Shown>,
}

/// The different outcomes of a guest, each with turns that lead to it, by rising number of switches from thread to thread: of `most` switches,
/// if they aren't all found before. The observer is told how far the search is.
///
/// # Errors
/// Some thread doesn't come to its first entry or try, or out of memory before the first level.
pub fn explore<'a, O: Observer>(
    alloc: Global,
    setup: &Setup<'a>,
    bounds: Bounds,
    most: usize,
    observer: &O,
) -> Result<Explored<'a>, Stop>
    requires allowed { IsAllowed setup.now.profile setup.now.guest }
    requires some { 1 ≤ bounds.nodes }
    ensures explored { IfOk result (λ found. IsExplored setup.now bounds most found) }
    ensures refused { IfErr result (λ why. (why ≡ Memory) ⊎ IsStop setup.now bounds.private why) }
{
    let mut exploring = Exploring::start(alloc, setup, bounds, most)?;
    'levels: while exploring.goes_on() {
        exploring.go_over(observer);
    }
    Ok(exploring.end())
}
