//! What `ir hunt` does: seeds are tried until one leads to a run that fulfils conditions, which is then recorded.
#![tactic(auto)]

mod dealing;
mod hunting;
mod part;
mod plan;
mod report;
mod search;
mod seeker;
mod shown;
mod stale;
mod stretches;
mod tries;
mod worker;
mod worlds;

pub use hunting::{by_list, hunt_run, order_of_seed};
pub use plan::HuntPlan;
pub use shown::{ERASED, ROW, ROW_END};
pub use stale::rests_in_trace;
pub use worlds::counted_worlds;
