//! Checkpoints: states of a replay that are kept by the pages that changed.
#![tactic(auto)]

mod counting;
mod entry;
mod finding;
mod gathering;
mod keeper;
mod page;
mod store;

pub use keeper::{KeepErr, Keeper, MOST_CHECKPOINTS};
