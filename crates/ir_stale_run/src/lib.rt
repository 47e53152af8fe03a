//! Which stale writes rest on what was read, by the guest's image.
#![tactic(auto)]

mod closing;
mod differences;
mod found;
mod guide;
mod hold;
mod holding;
mod judging;
mod kept;
mod known;
mod lines;
mod noting;
mod opening;
mod reason;
mod rest;
mod run;
mod span;
mod spans;
mod stale;
mod stops;
mod visit;
mod walk;
mod watch;
mod watches;
mod what_if;
mod words;

pub use hold::Hold;
pub use reason::Reason;
pub use rest::Rest;
pub use run::RestsQuestion;
pub use stale::has_rests;
pub use walk::rests;
