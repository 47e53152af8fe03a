//! What gives the nodes that come next.

ghost use Rattle.std.specs.Prelude.{◌≡◌, ◌⊎◌, ℕ, suc, ◌<◌, ◌≤◌, Some, IfOk, IfErr, IsErrOf};
ghost use Rattle.ir_search.specs.Shape.{Shape, HasGrown};
ghost use Rattle.ir_search.specs.declared.stop.Stop.{Stop};
ghost use Rattle.ir_search.specs.declared.stop.Stop.TheVariants.{Nodes, Time};

use crate::stop::Stop;

/// A graph that grows: its nodes are numbers. Each thread leads from a node to at most one by each of two ways: its try is refused, or it takes
/// any other step.
pub trait Successors {
    /// What the graph was made of.
    ghost Origin: { Type 0 };

    /// What a node stands for.
    ghost Node: { Type 0 };

    /// What a search sees of the graph: its nodes, and where the threads lead that have been asked.
    ghost shape: { Self → Shape Self.Origin Self.Node };

    /// What is so of the graph however far it has grown.
    ghost is_sound: { Self → Type 0 };

    /// Why the graph may stop, as far as it has grown.
    ghost may_stop: { Self → Stop → Type 0 };

    /// How many seconds a search over it may take; `None` if as many as it takes.
    fn seconds(&self) -> Option<u32>
        ensures { (seconds : ℕ) → result ≡ Some seconds → may_stop self.now Time };

    /// What was noted of a thread and a node, with the thread's try refused or not: nothing, that the thread can't go on so, or the node to
    /// which it leads.
    fn known(&self, thread: usize, refused: bool, node: usize) -> Option<Option<usize>>
        ensures { result ≡ (shape self.now).noted thread refused node };

    /// The node to which a thread leads from a node, with its try refused or not, if it can go on so: an old one, or a new one after the
    /// others.
    ///
    /// # Errors
    /// `Nodes` if a new node would be one too many; any other as the graph says.
    fn next(&mut self, thread: usize, refused: bool, node: usize) -> Result<Option<usize>, Stop>
        requires node { node < (shape self.old).size }
        requires room { (shape self.old).size ≤ (shape self.old).most }
        requires sound { is_sound self.old }
        ensures found { IfOk result (λ next. (shape self.new).noted thread refused node ≡ Some next) }
        ensures within { IfOk result (λ next. (w : ℕ) → next ≡ Some w → w < (shape self.new).size) }
        ensures added { IfOk result
            (λ next. ((shape self.new).size ≡ (shape self.old).size)
            ⊎ ((next ≡ Some (shape self.old).size) × ((shape self.new).size ≡ suc (shape self.old).size))) }
        ensures grows { HasGrown (shape self.old) (shape self.new) }
        ensures room { (shape self.new).size ≤ (shape self.new).most }
        ensures full { IsErrOf result Nodes → (shape self.new).size ≡ (shape self.new).most }
        ensures stopped { IfErr result (λ stop. may_stop self.new stop) }
        ensures sound { is_sound self.new };
}
