//! What a search has found.

use crate::origin::{Origin, Refusal};

/// A node that is opened for a thread and isn't followed yet.
#[derive(Clone, Copy, Debug, PartialEq, Eq)]
pub struct Pending {
    /// The node.
    pub node: usize,
    /// How the thread came to it.
    pub origin: Origin,
}

/// What a search has found.
#[derive(Debug, Drop)]
pub struct Found {
    /// How it came to each node.
    pub nodes: Vec<Origin>,
    /// The refused tries of its turns.
    pub refusals: Vec<Refusal>,
    /// In a turn, the nodes that are left to follow.
    pub pending: Vec<Pending>,
}
