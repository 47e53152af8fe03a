//! A state that can't be brought to an end, with turns that lead to it.

ghost use Rattle.std.specs.Prelude.{◌≡◌, ℕ, ◌<◌, ◌≤◌, false, Some, None, length, slice_get, IfOk, IfErr};
ghost use Rattle.ir_search.specs.declared.origin.Origin.{Origin};
ghost use Rattle.ir_search.specs.Following.{IsNodeOpen};
ghost use Rattle.ir_search.specs.Ways.{shut};
ghost use Rattle.ir_graph.specs.Searched.{IsSearch};
ghost use Rattle.ir_graph.specs.Stops.{MayStop};
ghost use Rattle.ir_record.specs.Recording.{turns_of_items};
ghost use Rattle.ir_state_store.specs.Nodes.{SourcedFlat};
ghost use Rattle.ir_thread.specs.State.{IsAllowed};
ghost use Rattle.ir_outcomes.specs.Hang.{IsFirstHang};
ghost use Rattle.ir_outcomes.specs.Shown.{IsShownAt};
ghost use Rattle.ir_outcomes.specs.declared.shown.Shown.{Shown};

use crate::path::path_to;
use crate::rerun::run_to_node;
use crate::shown::Shown;
use ir_graph::States;
use ir_search::Stop;
use std::alloc::Global;

/// How many of the states aren't marked.
pub fn count_lost(marks: &[bool]) -> usize
    ensures { result ≡ shut marks.now }
{
    let mut lost = 0;
    for v in 0..marks.len() {
        if !marks[v] {
            lost += 1;
        }
    }
    lost
}

// The first that isn't.
fn first_lost(marks: &[bool]) -> Option<usize>
    ensures some { (v : ℕ) → result ≡ Some v → IsFirstHang marks.now v }
    ensures none { result ≡ None → (v : ℕ) → v < length marks.now → IsNodeOpen marks.now v }
{
    for v in 0..marks.len() {
        if !marks[v] {
            return Some(v);
        }
    }
    None
}

// Turns that lead to a node.
fn lead(alloc: Global, states: &States<'_>, node: usize) -> Result<Shown, Stop>
    requires allowed { IsAllowed states.now.graph.setup.profile states.now.graph.setup.guest }
    requires search { IsSearch states.now }
    requires origin { node < length states.now.search.found.nodes.items }
    ensures refused { IfErr result (λ stop. MayStop states.now.graph.setup states.now.graph.flats.items states.now.graph.bounds stop) }
    ensures node { IfOk result (λ shown. shown.node ≡ node) }
    ensures level { IfOk result (λ shown. (n : Origin) → slice_get states.now.search.found.nodes.items node ≡ Some n → shown.level ≡ n.level) }
    ensures shown { IfOk result
        (λ shown. (s : SourcedFlat) → slice_get states.now.graph.flats.items node ≡ Some s
        → IsShownAt states.now.graph.setup s shown.level (turns_of_items shown.turns.items)) }
{
    let origins = states.search.found.nodes.as_slice();
    let path = path_to(alloc, origins, node)?;
    let (_, turns) = match run_to_node(alloc, states, path.as_slice(), node) {
        Ok(run) => run,
        Err(stop) => return Err(stop),
    };
    Ok(Shown {
        node,
        level: origins[node].level as usize,
        turns,
    })
}

/// The first state that isn't marked, with turns that lead to it.
///
/// # Errors
/// Out of memory, or a thread is not followed on the way.
pub fn find_hang(alloc: Global, states: &States<'_>, marks: &[bool]) -> Result<Option<Shown>, Stop>
    requires allowed { IsAllowed states.now.graph.setup.profile states.now.graph.setup.guest }
    requires search { IsSearch states.now }
    requires marks { length marks.now ≤ length states.now.search.found.nodes.items }
    ensures refused { IfErr result (λ stop. MayStop states.now.graph.setup states.now.graph.flats.items states.now.graph.bounds stop) }
    ensures none { IfOk result (λ hang. hang ≡ None → (v : ℕ) → v < length marks.now → IsNodeOpen marks.now v) }
    ensures first { IfOk result (λ hang. (x : Shown) → hang ≡ Some x → IsFirstHang marks.now x.node) }
    ensures level { IfOk result (λ hang. (x : Shown) → hang ≡ Some x → (n : Origin) → slice_get states.now.search.found.nodes.items x.node ≡ Some n → x.level ≡ n.level) }
    ensures shown { IfOk result
        (λ hang. (x : Shown) → hang ≡ Some x → (s : SourcedFlat) → slice_get states.now.graph.flats.items x.node ≡ Some s
        → IsShownAt states.now.graph.setup s x.level (turns_of_items x.turns.items)) }
{
    let Some(node) = first_lost(marks) else {
        return Ok(None);
    };
    match lead(alloc, states, node) {
        Ok(shown) => Ok(Some(shown)),
        Err(stop) => Err(stop),
    }
}
