//! A thread of a guest: a machine with its system calls, the objects that it holds, its output and its end.
#![tactic(auto)]

mod ask;
mod call;
mod end;
mod frame;
mod holding;
mod laws;
mod limits;
mod profile;
mod registers;
mod thread;

pub use ask::{Ask, Reply};
pub use call::Call;
pub use end::End;
pub use frame::Frame;
pub use laws::{built_again, closes, ends_by_the_first, runs_alone};
pub use limits::{MOST_BUDGET, MOST_END, MOST_EVENTS, MOST_OUTPUT};
pub use profile::Profile;
pub use registers::{A0, A7};
pub use thread::Thread;
