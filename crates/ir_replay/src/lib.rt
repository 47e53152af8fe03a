//! Replay of a fitted trace: the threads and objects of a guest at a consistent cut, brought to a later one.
#![tactic(auto)]

mod admission;
mod alone;
mod limit;
mod meter;
mod moves;
mod pace;
mod passes;
mod patience;
mod round;
mod stepping;
mod stretch;
mod telling;
mod worker;

pub use alone::{advance_alone, advance_unmarked};
pub use ir_weave::{State, one_state_each};
pub use moves::{advance, advance_in_order};
pub use pace::Pace;
