//! Questions of a recorded run that gdb's `monitor` asks, and their answers.
#![tactic(auto)]

mod answering;
mod asked;
mod events;
mod here;
mod last;
mod laws;
mod line;
mod saying;

pub use answering::answer;
pub use asked::{Asked, Form};
pub use here::Here;
pub use laws::no_question_is_a_command;
pub use line::asked_of;
