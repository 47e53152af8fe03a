//! Moves of a replay in both directions: threads and objects are brought to any consistent cut, from the checkpoint that is nearest.
#![tactic(auto)]

mod below;
mod bringing;
mod checkpoints;
mod parts;
mod passed;

pub use checkpoints::Checkpoints;
