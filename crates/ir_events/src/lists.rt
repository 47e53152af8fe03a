//! The pcs of the events of each thread.

ghost use Rattle.std.specs.Prelude.{ℕ, List};

use std::alloc::{AllocError, Global};
use std::marker::Model;

/// The pcs of a thread's events, in the order of its log. In clauses a list of numbers.
#[derive(Drop)]
pub struct ThreadPcs {
    pcs: Vec<u32>,
}

impl Model for ThreadPcs {
    ghost Value = { List ℕ };

    ghost view = { λ p. p.pcs.items };
}

impl ThreadPcs {
    ghost use Rattle.std.specs.Prelude.{◌≡◌, ◌++◌, ◌∷◌, [], length, IfOk, OnOk};

    // No pc yet, with room for those of so many events.
    pub fn new(alloc: Global, events: usize) -> Result<ThreadPcs, AllocError>
        ensures { IfOk result (λ p. p ≡ []) }
    {
        let pcs = Vec::with_capacity(alloc, events)?;
        Ok(ThreadPcs { pcs })
    }

    // The pc of the next event.
    pub fn add(&mut self, pc: u32) -> Result<(), AllocError>
        ensures { OnOk result (self.new ≡ self.old ++ pc ∷ []) }
    {
        self.pcs.push(pc)?;
        Ok(())
    }

    // Of how many events it has the pc.
    pub fn len(&self) -> usize
        ensures { result ≡ length self.now }
    {
        self.pcs.len()
    }

    // The pcs.
    pub fn as_slice(&self) -> &[u32]
        ensures { result.now ≡ self.now }
    {
        self.pcs.as_slice()
    }
}

/// The pcs of the events of each thread. In clauses a list of lists of numbers.
#[derive(Drop)]
pub struct EventPcs {
    threads: Vec<ThreadPcs>,
}

impl Model for EventPcs {
    ghost Value = { List (List ℕ) };

    ghost view = { λ p. p.threads.items };
}

impl EventPcs {
    ghost use Rattle.std.specs.Prelude.{◌≡◌, ◌<◌, [], length};
    ghost use Rattle.std.specs.List.{slice_index_or};

    // Those of these threads.
    pub(crate) fn new(threads: Vec<ThreadPcs>) -> EventPcs
        ensures { result ≡ threads.items }
    {
        EventPcs { threads }
    }

    /// How many threads there are.
    pub fn len(&self) -> usize
        ensures { result ≡ length self.now }
    {
        self.threads.len()
    }

    /// The pcs of thread t's events, in the order of its log.
    pub fn at(&self, t: usize) -> &[u32]
        requires { t < length self.now }
        ensures { result.now ≡ slice_index_or self.now t [] }
    {
        self.threads[t].as_slice()
    }
}
