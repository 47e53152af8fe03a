//! What a stream of gdb's remote serial protocol holds, and packets as they are written. The protocol is that of the
//! GDB manual, appendix 'GDB Remote Serial Protocol'.
#![tactic(auto)]

mod arguments;
mod condition;
mod found;
mod laws;
mod number;
mod parse;
mod raw;
mod reader;
mod reply;
mod replying;
mod request;
mod standing;
#[cfg(test)]
mod tests;
mod writing;

pub use condition::Condition;
pub use found::Found;
pub use laws::{
    packet_is_read_back, parts_are_the_stream, parts_hold_what_the_stream_holds,
    pieces_hold_what_the_stream_holds, reader_finds_what_the_stream_holds,
};
pub use parse::{break_conditions, put_line, request_of};
pub use reader::{MOST_PAYLOAD, Reader};
pub use reply::{Reason, Reply, Signal, Stop};
pub use replying::{
    MOST_STOP, put_number, put_output, put_piece, put_stop, put_text, put_words, reply_text,
};
pub use request::{Motion, Mover, Request, Who};
pub use writing::{put_hex, put_packet, put_word};
