//! How a search came to a node, and the level it is in.

ghost use Rattle.std.specs.Prelude.{◌≡◌, ◌≤◌, ◌^◌, IfOk, IfErr};

use std::alloc::AllocError;

/// How a search came to a node first: one thread went on alone, from a node where its turn began.
#[derive(Clone, Copy, Debug, PartialEq, Eq)]
pub struct Origin {
    /// The node where the turn began.
    pub from: u32,
    /// The thread.
    pub thread: u32,
    /// The last of its tries that was refused: 0 where none was, else its place in the table of refused tries and 1.
    pub last_refusal: u32,
    /// How many entries and tries that enter came after it.
    pub entries: u32,
    /// The level: how often the thread was switched on the way.
    pub level: u32,
}

/// A refused try of a turn, with the steps before it.
#[derive(Clone, Copy, Debug, PartialEq, Eq)]
pub struct Refusal {
    /// The refused try before: 0 where there is none, else its place in the table and 1.
    pub before: u32,
    /// How many entries and tries that enter came between.
    pub entries: u32,
}

/// A level of a search: each thread has a turn from each of these nodes.
#[derive(Clone, Copy, Debug, PartialEq, Eq)]
pub struct Level {
    /// How often the thread was switched.
    pub number: usize,
    /// The first of the nodes.
    pub first: usize,
    /// The node after the last of them.
    pub until: usize,
}

// A number in 32 bits. The error is for one that is too large.
pub(crate) fn narrow(number: usize) -> Result<u32, AllocError>
    ensures same { IfOk result (λ n. n ≡ number) }
    ensures large { IfErr result (λ _. 2 ^ 32 ≤ number) }
{
    if number <= u32::MAX as usize {
        Ok(number as u32)
    } else {
        Err(AllocError)
    }
}

// The beginning of a thread's turn at a node. The error is for numbers that are too large.
pub(crate) fn turn_from(from: usize, thread: usize, level: usize) -> Result<Origin, AllocError>
    ensures from { IfOk result (λ start. start.from ≡ from) }
    ensures thread { IfOk result (λ start. start.thread ≡ thread) }
    ensures level { IfOk result (λ start. start.level ≡ level) }
    ensures none { IfOk result (λ start. (start.last_refusal ≡ 0) × (start.entries ≡ 0)) }
{
    Ok(Origin {
        from: narrow(from)?,
        thread: narrow(thread)?,
        last_refusal: 0,
        entries: 0,
        level: narrow(level)?,
    })
}
