//! A thread at a node, by one of its two ways.

ghost use Rattle.std.specs.Prelude.{◌≡◌, true, None, IfSome};
ghost use Rattle.ir_graph.specs.Plain.{MayGo, result_by};

use ir_thread::Ask;

/// A thread at a node: its refused try, or any other step of it.
#[derive(Clone, Copy, Debug, PartialEq, Eq)]
pub struct Way {
    /// The thread.
    pub thread: usize,
    /// Whether its try is refused.
    pub refused: bool,
    /// The node.
    pub node: usize,
}

/// The result of a step by this way, if a thread that asks so has one: only one that tries is refused.
pub fn way_result(refused: bool, asked: Ask) -> Option<u32>
    ensures result { IfSome result (λ r. r ≡ result_by refused) }
    ensures has { IfSome result (λ r. MayGo refused asked) }
    ensures none { result ≡ None → (refused ≡ true) × (MayGo true asked → ⊥) }
{
    match asked {
        Ask::Try(_) if refused => Some(0),
        _ if refused => None,
        _ => Some(1),
    }
}
