//! The debugger's commands, and the lines that ask them.
#![tactic(auto)]

mod arguments;
mod command;
mod hit;
mod number;
mod parse;
mod refusal;
mod words;

pub use command::{ByteCount, Command, Direction, Keeping, MOST_SHOWN, Move, Point, Show};
pub use hit::Hit;
pub use number::parse_u32;
pub use parse::{MOST_LINE, parse_line};
pub use refusal::Refusal;
pub use words::{next_word, without_return};
