//! What a line may ask.

use std::marker::Model;

/// A command of the debugger.
#[derive(Clone, Copy, Debug, PartialEq, Eq)]
pub enum Command {
    /// A move of all threads to another cut.
    Move(Move),
    /// `cont T` and `rcont T`: a move that takes a thread to where a point hits it first in this direction, or to the
    /// end of its steps there.
    Continue { thread: u32, direction: Direction },
    /// `pos`: report the position of each thread.
    Position,
    /// Show what is at the cut.
    Show(Show),
    /// Set a point.
    Set(Point),
    /// `clear N`: take a point away.
    Clear { number: u32 },
    /// Something about the cuts that are kept.
    Keeping(Keeping),
    /// `quit`: end the session.
    Quit,
}

/// A move of all threads to another cut.
#[derive(Clone, Copy, Debug, PartialEq, Eq)]
pub enum Move {
    /// `step T N`: N steps of the thread on, or to its last position.
    Step { thread: u32, count: u32 },
    /// `back T N`: N steps of the thread back, or to 0.
    Back { thread: u32, count: u32 },
    /// `goto T K`: to this position of the thread, or to its last.
    Goto { thread: u32, position: u64 },
    /// `start`: all threads to 0.
    Start,
    /// `end`: all threads to their last positions.
    End,
}

/// Which way a thread is taken.
#[derive(Clone, Copy, Debug, PartialEq, Eq)]
pub enum Direction {
    Forwards,
    Backwards,
}

/// What a thread is stopped at when it is continued.
#[derive(Clone, Copy, Debug, PartialEq, Eq)]
pub enum Point {
    /// `break T A`: a breakpoint. It hits where the thread's pc is this address and it has a step left.
    Break { thread: u32, address: u32 },
    /// `watch T A`: a watchpoint, after a step that changes the word of the thread's private memory at this address.
    Watch { thread: u32, address: u32 },
    /// `owatch O`: a watchpoint of an object, after a thread's own step that leaves it after writing.
    WatchObject { object: u32 },
}

/// What is shown of the guest at the cut.
#[derive(Clone, Copy, Debug, PartialEq, Eq)]
pub enum Show {
    /// `regs T`: the thread's pc and registers.
    Registers {
        thread: u32,
    },
    /// `mem T A N`: bytes of the code or of the thread's private memory, from an address on.
    Memory {
        thread: u32,
        address: u32,
        size: ByteCount,
    },
    /// `obj O`: an object.
    Object {
        object: u32,
    },
    /// `out T`: what the thread has printed.
    Output {
        thread: u32,
    },
    /// `log T`: the events that the thread has logged.
    Log {
        thread: u32,
    },
    /// `next T`: the thread's next step.
    Next {
        thread: u32,
    },
}

/// What is asked about the cuts that are kept, each by a number.
#[derive(Clone, Copy, Debug, PartialEq, Eq)]
pub enum Keeping {
    /// `keep`: keep the cut.
    Keep,
    /// `load N`: move all threads to a kept cut.
    Load { number: u32 },
    /// `drop N`: keep a cut no longer.
    Drop { number: u32 },
    /// `kept`: show each number, and the positions of its cut.
    Kept,
}

/// The most bytes that one command shows.
pub const MOST_SHOWN: usize = 256;

/// How many bytes are shown: 1 to 256.
#[derive(Clone, Copy, Debug, PartialEq, Eq)]
pub struct ByteCount {
    bytes: u16,
}

impl Model for ByteCount {
    ghost use Rattle.std.specs.Prelude.{ℕ, ◌≤◌};

    ghost Value = { ℕ };

    ghost view = { λ c. c.bytes };

    ghost inverse = { λ n. record { bytes = n } };

    ghost invariant = { λ c. (1 ≤ c.bytes) × (c.bytes ≤ 256) };
}

impl ByteCount {
    ghost use Rattle.std.specs.Prelude.{◌≡◌, ◌≤◌, Some, None, nat_le, if◌then◌else◌};
    ghost use Rattle.ir_command.specs.Commands.{most_bytes};
    ghost use Rattle.ir_command.specs.Cuts.{byte_count};

    /// The count of these bytes, if one command may show as many.
    pub fn new(bytes: u128) -> Option<ByteCount>
        ensures { result ≡ byte_count bytes }
    {
        if bytes == 0 || bytes > MOST_SHOWN as u128 {
            return None;
        }
        Some(ByteCount {
            bytes: bytes as u16,
        })
    }

    /// How many bytes.
    pub fn get(self) -> usize
        ensures value { result ≡ self }
        ensures some { 1 ≤ result }
        ensures within { result ≤ most_bytes }
    {
        self.bytes as usize
    }
}
