//! What `ir shrink` does: a recorded run is shrunk to one that fulfils the same conditions with fewer context switches.
#![tactic(auto)]

mod changes;
mod following;
mod judging;
mod laws;
mod leading;
mod mover;
mod note;
mod pace;
mod plan;
mod playing;
mod refusal;
mod report;
mod run;
mod searching;
mod stale;
mod step;
mod switches;

pub use laws::each_run_is_no_better;
pub use plan::ShrinkPlan;
pub use run::{GivenRun, Shrunk, shrink_run};
