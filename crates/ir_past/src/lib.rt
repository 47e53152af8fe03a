//! What a recorded trace says of its past: which writes rest on a read that was written over.
#![tactic(auto)]

mod absent;
mod answer;
mod ask_err;
mod asking;
mod counts;
mod last_reads;
mod laws;
mod lines;
mod logs;
mod made;
mod makers;
mod naming;
mod opened;
mod opening;
mod past_err;
mod place;
mod readers;
mod reads;
mod run;
mod stale;
mod stale_write;

pub use absent::Absent;
pub use answer::{Answer, line_answer, put_answer, put_bytes};
pub use ask_err::{AskErr, Printed};
pub use asking::{TraceQuestion, ask_trace};
pub use counts::write_count;
pub use laws::{entries_left, returns_counted};
pub use logs::{event_of, events_of, thread_count};
pub use made::makers_of;
pub use makers::Makers;
pub use naming::{maker_text, place_text};
pub use opened::{Opened, Refusal};
pub use opening::{open_trace, refuse};
pub use past_err::PastErr;
pub use place::Place;
pub use readers::readers_of;
pub use reads::{Reads, reads_of};
pub use run::StaleQuestion;
pub use stale::stale_writes;
pub use stale_write::StaleWrite;
