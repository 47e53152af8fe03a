//! What a line asks.

ghost use Rattle.std.specs.Prelude.{◌≡◌};
ghost use Rattle.ir_command.specs.Commands.{words_of, command_of, command_named};

use crate::arguments::{
    no_argument, one_number, thread_and_bytes, thread_and_position, two_numbers,
};
use crate::command::{Command, Direction, Keeping, Move, Point, Show};
use crate::refusal::Refusal;
use crate::words::{next_word, without_return};

/// The most bytes of a line, a carriage return among them and its line feed not.
pub const MOST_LINE: usize = 1024;

// The command of this name: a row for each, with the numbers that its words write.
#[tactic(auto, unfolding(crate::specs::Commands::command_named))]
fn named(name: &[u8], words: &[u8]) -> Result<Command, Refusal>
    ensures { result ≡ command_named name.now (words_of words.now) }
{
    if name == b"step".as_slice() {
        two_numbers(words).map(|(thread, count)| Command::Move(Move::Step { thread, count }))
    } else if name == b"back".as_slice() {
        two_numbers(words).map(|(thread, count)| Command::Move(Move::Back { thread, count }))
    } else if name == b"goto".as_slice() {
        thread_and_position(words).map(|(thread, position)| Command::Move(Move::Goto {
            thread,
            position,
        }))
    } else if name == b"cont".as_slice() {
        one_number(words).map(|thread| Command::Continue {
            thread,
            direction: Direction::Forwards,
        })
    } else if name == b"rcont".as_slice() {
        one_number(words).map(|thread| Command::Continue {
            thread,
            direction: Direction::Backwards,
        })
    } else if name == b"start".as_slice() {
        no_argument(words).map(|()| Command::Move(Move::Start))
    } else if name == b"end".as_slice() {
        no_argument(words).map(|()| Command::Move(Move::End))
    } else if name == b"pos".as_slice() {
        no_argument(words).map(|()| Command::Position)
    } else if name == b"break".as_slice() {
        two_numbers(words).map(|(thread, address)| Command::Set(Point::Break { thread, address }))
    } else if name == b"watch".as_slice() {
        two_numbers(words).map(|(thread, address)| Command::Set(Point::Watch { thread, address }))
    } else if name == b"owatch".as_slice() {
        one_number(words).map(|object| Command::Set(Point::WatchObject { object }))
    } else if name == b"clear".as_slice() {
        one_number(words).map(|number| Command::Clear { number })
    } else if name == b"regs".as_slice() {
        one_number(words).map(|thread| Command::Show(Show::Registers { thread }))
    } else if name == b"mem".as_slice() {
        thread_and_bytes(words).map(|(thread, address, size)| Command::Show(Show::Memory {
            thread,
            address,
            size,
        }))
    } else if name == b"obj".as_slice() {
        one_number(words).map(|object| Command::Show(Show::Object { object }))
    } else if name == b"out".as_slice() {
        one_number(words).map(|thread| Command::Show(Show::Output { thread }))
    } else if name == b"log".as_slice() {
        one_number(words).map(|thread| Command::Show(Show::Log { thread }))
    } else if name == b"next".as_slice() {
        one_number(words).map(|thread| Command::Show(Show::Next { thread }))
    } else if name == b"keep".as_slice() {
        no_argument(words).map(|()| Command::Keeping(Keeping::Keep))
    } else if name == b"load".as_slice() {
        one_number(words).map(|number| Command::Keeping(Keeping::Load { number }))
    } else if name == b"drop".as_slice() {
        one_number(words).map(|number| Command::Keeping(Keeping::Drop { number }))
    } else if name == b"kept".as_slice() {
        no_argument(words).map(|()| Command::Keeping(Keeping::Kept))
    } else if name == b"quit".as_slice() {
        no_argument(words).map(|()| Command::Quit)
    } else {
        Err(Refusal::UnknownCommand)
    }
}

/// The command that a line asks; None where the line has no words.
///
/// A line is given without its line feed; a carriage return at its end is dropped, but counts in its length.
/// Words are parted by spaces and tabs.
///
/// # Errors
/// `LineTooLong` for more than 1,024 bytes, `UnknownCommand`, or `BadArgument` for the number of arguments, the form of one or its limit;
/// tested in this order.
#[tactic(auto, unfolding(crate::specs::Commands::command_of))]
pub fn parse_line(line: &[u8]) -> Result<Option<Command>, Refusal>
    ensures { result ≡ command_of line.now }
{
    if line.len() > MOST_LINE {
        return Err(Refusal::LineTooLong);
    }
    match next_word(without_return(line)) {
        None => Ok(None),
        Some((name, arguments)) => Ok(Some(named(name, arguments)?)),
    }
}
