//! The texts of the debugger's answers: registers, bytes, objects, logs, next steps, positions, refusals and verdicts, each written
//! by one buffer, without memory of its own. What is proved is for callers in `proofs/CallerLemmas.antt`.
#![tactic(auto)]

mod bytes;
mod events;
mod next;
mod objects;
mod positions;
mod room;
mod text;
mod verdicts;

pub use bytes::{write_memory, write_output};
pub use events::{put_event_text, write_log};
pub use next::next_line;
pub use objects::write_object;
pub use positions::{put_hit, put_positions, put_stop};
pub use text::{ROOM, Text, put_number, write_machine, write_number, write_refusal};
pub use verdicts::{refusal_line, write_verdict};
