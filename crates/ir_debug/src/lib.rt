//! The debugger: whether a trace is of a run of a guest, and a session that shows the run.
#![tactic(auto)]

mod announcing;
mod answer;
mod answering;
mod bytes;
mod debugger;
mod destinations;
mod ended;
mod kept;
mod opening;
mod points;
mod refusals;
mod serving;
mod sessions;
mod showing;

pub use announcing::announce;
pub use answer::Answer;
pub use answering::write_answer;
pub use bytes::open;
pub use debugger::Debugger;
pub use ended::{Ended, SessionErr};
pub use ir_command::{Command, Hit, Refusal, parse_line};
pub use ir_hits::NumberedPoint;
pub use ir_stream::{DeviceErr, FromStd, Sink, Source};
pub use opening::Opened;
pub use points::MOST_POINTS;
pub use serving::respond;
pub use sessions::{MOST_INPUT, session, session_up_to};
