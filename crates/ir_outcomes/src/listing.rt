//! The outcomes among the states that were found.

ghost use Rattle.std.specs.Prelude.{◌≡◌, suc, ◌<◌, ◌≤◌, true, false, Some, length, IfErr, OnErr, OnOk};
ghost use Rattle.ir_search.specs.Following.{Stay};
ghost use Rattle.ir_graph.specs.Searched.{AreSearched, IsSearch};
ghost use Rattle.ir_outcomes.specs.Explored.{AreExplored, IsFew, MayEnd};
ghost use Rattle.ir_outcomes.specs.Exploring.{HasShown};
ghost use Rattle.ir_thread.specs.State.{IsAllowed};

use crate::shown::{Shown, show};
use ir_graph::{Bounds, States, has_new_outcome};
use ir_search::Stop;
use std::alloc::Global;

/// The different outcomes that were found.
#[derive(Debug, Drop)]
pub struct Listing {
    /// The outcomes, each of which is shown.
    pub outcomes: Vec<Shown>,
    /// Each outcome of a run with fewer switches is among them.
    pub levels: usize,
    // Their nodes.
    pub(crate) listed: Vec<usize>,
    // Among how many nodes they were looked for.
    pub(crate) seen: usize,
}

// Whether as many outcomes are listed as may be.
fn is_full(bounds: Bounds, outcomes: usize) -> bool
    requires few { IsFew bounds outcomes }
    ensures full { result ≡ true → bounds.outcomes ≡ Some outcomes }
    ensures more { result ≡ false → IsFew bounds (suc outcomes) }
{
    match bounds.outcomes {
        Some(most) => outcomes >= most,
        None => false,
    }
}

// A node's outcome is shown, if all threads are done there, it is new and there may be more.
fn add_node(alloc: Global, states: &States<'_>, list: &mut Listing, node: usize) -> Result<(), Stop>
    requires allowed { IsAllowed states.now.graph.setup.profile states.now.graph.setup.guest }
    requires search { IsSearch states.now }
    requires searched { AreSearched states.now.graph.setup states.now.graph.flats.items states.now.search.found.nodes.items states.now.search.level.number }
    requires node { node < length states.now.search.found.nodes.items }
    requires has { HasShown states.now.graph.setup states.now.graph.flats.items states.now.search.found.nodes.items node list.old.listed.items list.old.outcomes.items }
    requires few { IsFew states.now.graph.bounds (length list.old.outcomes.items) }
    ensures has { OnOk result (HasShown states.now.graph.setup states.now.graph.flats.items states.now.search.found.nodes.items (suc node) list.new.listed.items list.new.outcomes.items) }
    ensures same { OnErr result (list.new.outcomes.items ≡ list.old.outcomes.items) }
    ensures stay { Stay list.old.outcomes.items list.new.outcomes.items }
    ensures few { IsFew states.now.graph.bounds (length list.new.outcomes.items) }
    ensures refused { IfErr result (λ why. MayEnd states.now.graph.setup states.now.graph.flats.items states.now.graph.bounds list.new.outcomes.items why) }
{
    let flats = &states.graph.flats;
    if !has_new_outcome(flats, list.listed.as_slice(), node) {
        return Ok(());
    }
    let shown = match show(alloc, states, node) {
        Ok(shown) => shown,
        Err(stop) => return Err(stop),
    };
    if is_full(states.graph.bounds, list.outcomes.len()) {
        return Err(Stop::Outcomes);
    }
    list.listed.push(node)?;
    list.outcomes.push(shown)?;
    Ok(())
}

/// The new outcomes among the states that were found since the last call are shown.
///
/// # Errors
/// Out of memory, a thread is not followed on the way to a state, or there would be more outcomes than there may be. Then only the outcomes
/// before are shown.
pub fn show_new(alloc: Global, states: &States<'_>, list: &mut Listing) -> Result<(), Stop>
    requires allowed { IsAllowed states.now.graph.setup.profile states.now.graph.setup.guest }
    requires search { IsSearch states.now }
    requires searched { AreSearched states.now.graph.setup states.now.graph.flats.items states.now.search.found.nodes.items states.now.search.level.number }
    requires few { list.old.seen ≤ length states.now.search.found.nodes.items }
    requires has { HasShown states.now.graph.setup states.now.graph.flats.items states.now.search.found.nodes.items list.old.seen list.old.listed.items list.old.outcomes.items }
    requires room { IsFew states.now.graph.bounds (length list.old.outcomes.items) }
    // What is listed is right, and complete up to a number of switches.
    ensures explored { AreExplored states.now.graph.setup states.now.graph.flats.items list.new.levels list.new.outcomes.items }
    ensures stay { Stay list.old.outcomes.items list.new.outcomes.items }
    // Once all are shown
    ensures has { OnOk result (HasShown states.now.graph.setup states.now.graph.flats.items states.now.search.found.nodes.items list.new.seen list.new.listed.items list.new.outcomes.items) }
    ensures whole { OnOk result ((list.new.seen ≡ length states.now.search.found.nodes.items) × (list.new.levels ≡ states.now.search.level.number)) }
    ensures few { IsFew states.now.graph.bounds (length list.new.outcomes.items) }
    ensures refused { IfErr result (λ why. MayEnd states.now.graph.setup states.now.graph.flats.items states.now.graph.bounds list.new.outcomes.items why) }
{
    for node in list.seen..states.search.found.nodes.len() {
        if let Err(why) = add_node(alloc, states, list, node) {
            list.levels = states.search.found.nodes[node].level as usize;
            return Err(why);
        }
    }
    list.seen = states.search.found.nodes.len();
    list.levels = states.search.level.number;
    Ok(())
}
