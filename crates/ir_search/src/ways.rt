//! Nodes from which threads lead to marked ones.

ghost use Rattle.std.specs.Prelude.{◌≡◌, ◌↔◌, ℕ, ◌<◌, true, false, Some, length};
ghost use Rattle.ir_search.specs.Following.{IsNodeOpen, StaysOpen};
ghost use Rattle.ir_search.specs.Ways.{shut, LeadsToMarked, IsMarkedBack, HasMarked};

use crate::successors::Successors;

// Whether a thread leads from a node to a marked one, with its try refused or not.
fn leads<S: Successors>(
    graph: &S,
    thread: usize,
    refused: bool,
    marks: &[bool],
    node: usize,
) -> bool
    ensures found { result ≡ true → (w : ℕ) × ((S.shape graph.now).noted thread refused node ≡ Some (Some w)) × IsNodeOpen marks.now w }
    ensures none { result ≡ false → (w : ℕ) → (S.shape graph.now).noted thread refused node ≡ Some (Some w) → IsNodeOpen marks.now w → ⊥ }
{
    match graph.known(thread, refused, node) {
        Some(Some(next)) => next < marks.len() && marks[next],
        _ => false,
    }
}

// Whether some of these threads leads by some way from a node to a marked one.
fn is_before<S: Successors>(graph: &S, threads: usize, marks: &[bool], node: usize) -> bool
    ensures found { result ≡ true → LeadsToMarked (S.shape graph.now).noted threads marks.now node }
    ensures none { result ≡ false → LeadsToMarked (S.shape graph.now).noted threads marks.now node → ⊥ }
{
    for thread in 0..threads {
        if leads(graph, thread, false, marks, node) || leads(graph, thread, true, marks, node) {
            return true;
        }
    }
    false
}

// From the last node to the first, marks each from which some of these threads leads by some way to a marked one; whether there was any.
fn sweep<S: Successors>(graph: &S, threads: usize, marks: &mut [bool]) -> bool
    ensures nodes { length marks.new ≡ length marks.old }
    ensures stays { StaysOpen marks.old marks.new }
    ensures ways { (v : ℕ) → IsNodeOpen marks.new v → HasMarked (S.shape graph.now).noted threads marks.old v }
    ensures less { result ≡ true → shut marks.new < shut marks.old }
    ensures back { result ≡ false → IsMarkedBack (S.shape graph.now).noted threads marks.new }
{
    let mut changed = false;
    for k in 0..marks.len() {
        let node = marks.len() - 1 - k;
        if !marks[node] && is_before(graph, threads, marks, node) {
            marks[node] = true;
            changed = true;
        }
    }
    changed
}

/// Marks each node from which some order of these threads leads to a marked one, each by one of its ways, as far as it was noted. That takes
/// as many sweeps over the nodes, at most, as there are nodes to mark, and one more; few where the nodes come by rising levels.
pub fn mark_ways<S: Successors>(graph: &S, threads: usize, marks: &mut [bool])
    ensures nodes { length marks.new ≡ length marks.old }
    ensures exact { (v : ℕ) → IsNodeOpen marks.new v ↔ HasMarked (S.shape graph.now).noted threads marks.old v }
{
    'sweeps: loop {
        if !sweep(graph, threads, marks) {
            return;
        }
    }
}
