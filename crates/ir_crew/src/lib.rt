//! The table of a recording: the objects of a guest, on which the seats of its threads step.
#![tactic(auto)]

mod deed;
mod entries;
mod opening;
mod pauses;
mod plays;
mod table;
mod tries;

pub use deed::{Deed, ObjectStep, Track};
pub use plays::Law;
pub use table::{Crew, CrewSeat};
