//! The events of a recorded run, each with the pc of the step that logged it.
#![tactic(auto)]

mod laws;
mod line;
mod lists;
mod logged;
mod texts;
mod visit;
mod walk;

pub use laws::events_logged;
pub use line::event_line;
pub use lists::EventPcs;
pub use logged::Logged;
pub use texts::events_text;
pub use walk::{are_done, ends_of, pcs};
