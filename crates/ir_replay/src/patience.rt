//! How long a worker waits for steps that aren't admitted.

ghost use Rattle.std.specs.Prelude.{◌≡◌, ◌<◌, true};

use crate::limit::Limit;
use crossbeam_utils::Backoff;
use std::thread;
use std::time::{Clock, Duration};

// How often a worker may look again in a round. Its time ends before.
const MOST_LOOKS: u64 = 1 << 40;

// How often it looks for one step before it sleeps between looks: by then it has waited longer than a sleep takes, so
// that sleeping at most doubles its wait. Fewer looks cost more than they save: with 40, replay took five times as long.
const LOOKS_BEFORE_SLEEP: u64 = 400;

// What it asks for; the system adds some 50 to each sleep.
const SLEEP_MICROS: u64 = 10;

// How often it looks for one step once another worker has ended its round: what it waits for may then not come. Some one
// millisecond longer than without sleeping, where a worker that ends has slept for five times as long.
const LAST_LOOKS: u64 = LOOKS_BEFORE_SLEEP + 20;

// After how many looks it asks for the time.
const LOOKS_FOR_A_TIME: u64 = 16;

/// How often a worker may still look for steps that aren't admitted.
#[derive(Drop)]
pub struct Patience<'a, C> {
    pub looks: u64,
    clock: &'a C,
    limit: &'a Limit,
}

impl<'a, C: Clock> Patience<'a, C> {
    // Of a worker that hasn't begun, in a round that ends so.
    pub fn new(clock: &'a C, limit: &'a Limit) -> Patience<'a, C> {
        Patience {
            looks: MOST_LOOKS,
            clock,
            limit,
        }
    }

    // Whether the worker ends its round, after `looked` looks for one step.
    fn is_over(&self, looked: u64) -> bool {
        if looked >= LAST_LOOKS && self.limit.is_ended() {
            return true;
        }
        self.looks % LOOKS_FOR_A_TIME == 0 && self.limit.is_reached(self.clock)
    }

    // Waits a moment after `looked` looks for one step; or says that there is no time for another.
    pub fn wait(&mut self, backoff: &Backoff, looked: u64) -> bool
        ensures { result ≡ true → self.new.looks < self.old.looks }
    {
        if self.looks == 0 || self.is_over(looked) {
            self.limit.end();
            return false;
        }
        self.looks -= 1;
        if looked < LOOKS_BEFORE_SLEEP {
            backoff.snooze();
        } else {
            thread::sleep(self.clock, Duration::from_micros(SLEEP_MICROS));
        }
        true
    }
}
