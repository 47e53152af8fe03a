//! Steps on a walk over a recorded run, and what the threads ask and hold on the way.
#![tactic(auto)]

mod exchange;
mod route;
mod states;
mod stepping;

pub use exchange::Exchange;
pub use route::{Route, unmarked};
pub use states::{thread_of, word_at, word_of, words_of};
pub use stepping::{Stretch, take_steps};
