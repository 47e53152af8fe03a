//! How far a search goes.

/// How far a search may go.
#[derive(Clone, Copy, Debug, PartialEq, Eq)]
pub struct Bounds {
    /// How many nodes there may be.
    pub nodes: usize,
    /// How many steps a thread may take from one entry or try to the next.
    pub private: u64,
    /// How many seconds the search may take; `None` if as many as it takes.
    pub seconds: Option<u32>,
    /// How many different outcomes may be listed; `None` if as many as there are.
    pub outcomes: Option<usize>,
}
