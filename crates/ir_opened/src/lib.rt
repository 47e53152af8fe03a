//! The bytes of an image and of a trace: a guest and a trace of one of its runs, or why not, in words.
#![tactic(auto)]

mod asking;
mod laws;
mod opened;
mod opening;
mod positions;

pub use asking::{RunQuestion, ask_run};
pub use laws::events_left;
pub use opened::{Opened, Refusal};
pub use opening::{open_fit, refuse};
pub use positions::{leave_of, step_of, step_text};
