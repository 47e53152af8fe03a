//! The states that can be brought to an end.

ghost use Rattle.std.specs.Prelude.{◌≡◌, ℕ, Some, length, slice_get, IfOk};
ghost use Rattle.ir_search.specs.Following.{IsNodeOpen};
ghost use Rattle.ir_flat.specs.Flat.{machine, tables};
ghost use Rattle.ir_graph.specs.Hangs.{AreWays};
ghost use Rattle.ir_graph.specs.Notes.{noted_by};
ghost use Rattle.ir_runs.specs.Run.{IsDone};
ghost use Rattle.ir_state_store.specs.Nodes.{SourcedFlat};

use crate::graph::Graph;
use ir_search::mark_ways;
use ir_state_store::Store;
use std::alloc::{AllocError, Global};

// Which of these states have all threads done.
fn done_states(alloc: Global, flats: &Store<'_>) -> Result<Vec<bool>, AllocError>
    ensures nodes { IfOk result (λ done. length done.items ≡ length flats.now.items) }
    ensures done { IfOk result (λ done. (v : ℕ) (s : SourcedFlat) → slice_get flats.now.items v ≡ Some s → IsNodeOpen done.items v → IsDone (machine s.flat) (tables s.flat)) }
    ensures marked { IfOk result (λ done. (v : ℕ) (s : SourcedFlat) → slice_get flats.now.items v ≡ Some s → IsDone (machine s.flat) (tables s.flat) → IsNodeOpen done.items v) }
{
    let mut done = Vec::with_capacity(alloc, flats.len())?;
    for v in 0..flats.len() {
        done.push(flats.is_over(v))?;
    }
    Ok(done)
}

/// Marks the states from which some order of the threads leads to one where all are done, as far as it was noted.
///
/// # Errors
/// Out of memory.
pub fn mark_states(alloc: Global, graph: &Graph<'_>) -> Result<Vec<bool>, AllocError>
    ensures { IfOk result (λ marks. AreWays (noted_by graph.now.rows.items graph.now.refused_rows.items) (length graph.now.rows.items) graph.now.flats.items marks.items) }
{
    let mut marks = done_states(alloc, &graph.flats)?;
    mark_ways(graph, graph.rows.len(), &mut marks);
    Ok(marks)
}
