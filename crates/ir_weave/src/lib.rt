//! The table of a replay: threads of a fitted trace that share its objects, each a step at a time.
#![tactic(auto)]

mod ends;
mod laws;
mod plan;
mod plays;
mod state;
mod stepping;
mod weave;

pub use laws::one_state_each;
pub use plan::{Plan, Progress};
pub use plays::Law;
pub use state::State;
pub use stepping::Tried;
pub use weave::{Weave, WeaveSeat};
