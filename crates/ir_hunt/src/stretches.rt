//! How many seeds are tried at once.

ghost use Rattle.std.specs.Prelude.{◌≡◌, ◌≤◌};

use ir_schedule::Seeds;

// The most seeds of a stretch, for each worker.
const MOST_EACH: u64 = 1 << 20;

// Stretches grow until one takes this many milliseconds. At its end each worker waits for the slowest, so a short one wastes processors.
const ENOUGH_MILLIS: u32 = 400;

/// How long the next stretch is.
#[derive(Clone, Copy, Debug)]
pub struct Stretches {
    // For each worker.
    each: u64,
    workers: u64,
}

impl Stretches {
    /// The first, for this number of workers.
    pub fn new(workers: u64) -> Stretches {
        Stretches { each: 1, workers }
    }

    /// The next stretch of the seeds that are left.
    pub fn next(&self, left: Seeds) -> Seeds
        requires { left.first ≤ left.last }
        ensures first { result.first ≡ left.first }
        ensures some { result.first ≤ result.last }
        ensures within { result.last ≤ left.last }
    {
        let more = self.each.saturating_mul(self.workers).saturating_sub(1);
        Seeds {
            first: left.first,
            last: left.first.saturating_add(more).min(left.last),
        }
    }

    /// The last stretch took this many milliseconds.
    pub fn took(&mut self, millis: u32) {
        if millis < ENOUGH_MILLIS && self.each < MOST_EACH {
            self.each *= 2;
        }
    }
}
