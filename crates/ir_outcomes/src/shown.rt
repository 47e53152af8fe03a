//! An outcome with turns that lead to it.

ghost use Rattle.std.specs.Prelude.{◌≡◌, ◌<◌, Some, length, slice_get, IfOk, IfErr};
ghost use Rattle.ir_search.specs.declared.origin.Origin.{Origin};
ghost use Rattle.ir_flat.specs.Flat.{machine, tables};
ghost use Rattle.ir_graph.specs.Searched.{IsSearch};
ghost use Rattle.ir_graph.specs.Stops.{MayStop};
ghost use Rattle.ir_record.specs.Recording.{turns_of_items};
ghost use Rattle.ir_runs.specs.Run.{IsDone};
ghost use Rattle.ir_state_store.specs.Nodes.{SourcedFlat};
ghost use Rattle.ir_thread.specs.State.{IsAllowed};
ghost use Rattle.ir_outcomes.specs.Shown.{IsShown};

use crate::path::path_to;
use crate::rerun::run_to_node;
use ir_graph::States;
use ir_record::Item;
use ir_search::Stop;
use std::alloc::Global;

/// An outcome: a node that has it first, and turns that lead to it.
#[derive(Debug, Drop)]
pub struct Shown {
    /// The node.
    pub node: usize,
    /// How often the thread that enters or tries is switched.
    pub level: usize,
    /// The steps of the threads, in turn; a try in them is refused, or it enters.
    pub turns: Vec<Item>,
}

/// The outcome of a node where all threads are done, with turns that lead to it.
///
/// # Errors
/// Out of memory, or a thread is not followed on the way.
pub fn show(alloc: Global, states: &States<'_>, node: usize) -> Result<Shown, Stop>
    requires allowed { IsAllowed states.now.graph.setup.profile states.now.graph.setup.guest }
    requires search { IsSearch states.now }
    requires origin { node < length states.now.search.found.nodes.items }
    requires done { (s : SourcedFlat) → slice_get states.now.graph.flats.items node ≡ Some s → IsDone (machine s.flat) (tables s.flat) }
    ensures refused { IfErr result (λ stop. MayStop states.now.graph.setup states.now.graph.flats.items states.now.graph.bounds stop) }
    ensures node { IfOk result (λ shown. shown.node ≡ node) }
    ensures level { IfOk result (λ shown. (n : Origin) → slice_get states.now.search.found.nodes.items node ≡ Some n → shown.level ≡ n.level) }
    ensures shown { IfOk result (λ shown. (s : SourcedFlat) → slice_get states.now.graph.flats.items node ≡ Some s → IsShown states.now.graph.setup s shown.level (turns_of_items shown.turns.items)) }
{
    let origins = states.search.found.nodes.as_slice();
    let path = path_to(alloc, origins, node)?;
    let (_, turns) = match run_to_node(alloc, states, path.as_slice(), node) {
        Ok(run) => run,
        Err(stop) => return Err(stop),
    };
    Ok(Shown {
        node,
        level: origins[node].level as usize,
        turns,
    })
}
