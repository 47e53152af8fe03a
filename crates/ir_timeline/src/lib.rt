//! A recorded run in hand: where its threads and objects stand, and moves, searches and kept states along it.
#![tactic(auto)]

mod cuts;
mod hand;
mod searching;
mod timeline;

pub use cuts::{first_cut, last_cut, last_position, thread_count};
pub use timeline::Timeline;
