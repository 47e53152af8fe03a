//! What a thread logs: events in order, and places among them.
#![tactic(auto)]

mod cursor;
mod event;
mod laws;
mod log;

pub use cursor::{Cursor, Disagree};
pub use event::Event;
pub use laws::one_label_each;
pub use log::Log;
