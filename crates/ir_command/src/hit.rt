//! A hit.

/// A position of a thread at which a point hits it.
#[derive(Clone, Copy, Debug, PartialEq, Eq)]
pub struct Hit {
    /// How many steps the thread has taken.
    pub position: u64,
    /// The lowest number of the points that hit it there.
    pub number: u32,
}
