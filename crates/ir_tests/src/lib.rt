//! What holds of several parts of the debugger together: laws, and tests that record, judge, replay and debug.
#![tactic(auto)]

#[cfg(test)]
mod checkpoint_tests;
#[cfg(test)]
mod cut_tests;
#[cfg(test)]
mod ends;
#[cfg(test)]
mod example_tests;
#[cfg(test)]
mod examples;
#[cfg(test)]
mod gates_tests;
pub mod guests;
#[cfg(test)]
mod keeper_tests;
#[cfg(test)]
mod large_tests;
mod laws;
pub mod meeting;
pub mod patches;
#[cfg(test)]
mod record_tests;
pub mod recorded_guests;
#[cfg(test)]
mod recorded_threads_tests;
#[cfg(test)]
mod recording_tests;
pub mod recordings;
#[cfg(test)]
mod replay_tests;
pub mod replays;
pub mod sources;
pub mod states;
pub mod traces;
#[cfg(test)]
mod tried_threads_tests;
#[cfg(test)]
mod tries_tests;
pub mod trying_guests;
#[cfg(test)]
mod waiting_tests;
#[cfg(test)]
mod weave_tests;
pub mod worlds;

pub use laws::recordings_fit;
