//! The different outcomes of the nodes that were found.

ghost use Rattle.std.specs.Prelude.{◌≡◌, suc, ◌<◌, ◌++◌, [], ◌∷◌, true, false, length};
ghost use Rattle.ir_graph.specs.Listing.{AreOutcomes};
ghost use Rattle.ir_graph.specs.Nodes.{AreNodes};

use ir_state_store::Store;

/// Whether all threads are done at a node: then none of those that are listed from before it has its outcome, because states with one outcome
/// look the same, and no two nodes do.
pub fn has_new_outcome(flats: &Store<'_>, listed: &[usize], node: usize) -> bool
    requires states { AreNodes flats.now.items }
    requires within { node < length flats.now.items }
    requires before { AreOutcomes flats.now.items node listed.now }
    ensures new { result ≡ true → AreOutcomes flats.now.items (suc node) (listed.now ++ node ∷ []) }
    ensures old { result ≡ false → AreOutcomes flats.now.items (suc node) listed.now }
{
    let _ = listed;
    flats.is_over(node)
}
