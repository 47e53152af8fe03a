//! What a move takes of the system, as one value.

use crate::gate::Gate;
use ir_runs::Access;
use std::alloc::Global;
use std::io;
use std::thread::Threads;
use std::time::{Clock, Duration};

/// What running threads take of the system: threads, a clock and memory; and who is told of entries, leaves and steps.
pub trait Hands: Threads + Clock + Gate + Sync {
    /// Where memory comes from.
    fn alloc(&self) -> Global;
}

/// A runtime, its memory and a gate.
#[derive(Drop)]
pub struct Given<'a, R, G> {
    rt: &'a R,
    alloc: Global,
    gate: &'a G,
}

impl<'a, R, G> Given<'a, R, G> {
    /// Threads and clock of the runtime, memory of the allocator, and the gate is told.
    pub fn new(rt: &'a R, alloc: Global, gate: &'a G) -> Given<'a, R, G> {
        Given { rt, alloc, gate }
    }
}

impl<R: Threads, G> Threads for Given<'_, R, G> {}

impl<R: Clock, G> Clock for Given<'_, R, G> {
    fn monotonic(&self) -> io::Result<Duration> {
        self.rt.monotonic()
    }

    fn since_1970(&self) -> io::Result<Duration> {
        self.rt.since_1970()
    }

    fn sleep(&self, duration: Duration) {
        self.rt.sleep(duration)
    }
}

impl<R, G: Gate> Gate for Given<'_, R, G> {
    fn entered(&self, thread: u8, object: u8, access: Access) {
        self.gate.entered(thread, object, access)
    }

    fn leaving(&self, thread: u8, object: u8, access: Access) {
        self.gate.leaving(thread, object, access)
    }

    fn stepped(&self, thread: u8, steps: u64) {
        self.gate.stepped(thread, steps)
    }
}

impl<R: Threads + Clock + Sync, G: Gate + Sync> Hands for Given<'_, R, G> {
    fn alloc(&self) -> Global {
        self.alloc
    }
}
