//! How far a search is.

/// What a search tells how far it is, and asks whether its time is over.
pub trait Observer {
    /// There are so many states; the last was found after so many switches from thread to thread.
    fn searched(&self, states: usize, switches: usize);

    /// So many different outcomes were found.
    fn listed(&self, outcomes: usize);

    /// Whether so many seconds have passed since it began to observe. A search whose graph bounds its seconds asks it at each node that it opens
    /// for a thread, and ends where the answer is true.
    fn is_over(&self, seconds: u32) -> bool;
}

/// Does nothing: no time is ever over.
#[derive(Clone, Copy, Debug)]
pub struct Unobserved;

impl Observer for Unobserved {
    fn searched(&self, _states: usize, _switches: usize) {}

    fn listed(&self, _outcomes: usize) {}

    fn is_over(&self, _seconds: u32) -> bool {
        false
    }
}
