//! How fast steps are taken.

use std::time::{Clock, Instant};

// A moment, and how many steps were left then.
#[derive(Clone, Copy)]
pub struct Meter {
    // None if the clock couldn't be read.
    start: Option<Instant>,
    left: u64,
}

impl Meter {
    // Now, with so many steps left.
    pub fn start(clock: &impl Clock, left: u64) -> Meter {
        Meter {
            start: Instant::now(clock).ok(),
            left,
        }
    }

    // How many steps were taken since then, if so many are left by now.
    pub fn taken(self, left: u64) -> u64 {
        self.left.saturating_sub(left)
    }

    // How many of so many steps were taken in a millisecond since then; none if the clock can't be read.
    pub fn rate(self, clock: &impl Clock, taken: u64) -> Option<u64> {
        let elapsed = self.start?.elapsed(clock).ok()?;
        let micros = (elapsed.as_micros() % (1 << 40)) as u64 + 1;
        Some(taken.saturating_mul(1000) / micros)
    }
}
