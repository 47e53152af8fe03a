//! What `ir list` and `ir events` answer: the code of an image, and the events of a recorded run, each with its step and pc.
#![tactic(auto)]

mod code;
mod events;

pub use code::list_report;
pub use events::EventsQuestion;
