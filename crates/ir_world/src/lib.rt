//! What answers the calls of a guest that is recorded: a count or a clock, random words, and the bytes of a file.
#![tactic(auto)]

mod program_world;
mod sources;
mod thread_worlds;
mod time;

pub use program_world::{MOST_ANSWERS, ProgramWorld};
pub use sources::Sources;
pub use thread_worlds::worlds;
pub use time::{Time, millis_since};
