//! The seeds of a stretch, dealt to whoever asks.

ghost use Rattle.std.specs.Prelude.{◌<◌, ◌≤◌, IfSome};

use ir_schedule::Seeds;
use std::sync::atomic::{AtomicU64, Ordering};

// How many hands there are for each worker. So no worker waits long for another at the end of a stretch.
const HANDS_EACH: u64 = 64;

/// The seeds of a stretch, dealt from the lowest up, a hand at a time, to the worker that asks next.
#[derive(Drop)]
pub struct Dealer {
    stretch: Seeds,
    // How many seeds a hand has.
    size: u64,
    hands: u64,
    // How many hands were dealt.
    dealt: AtomicU64,
    ghost some: { 0 < size },
}

impl Dealer {
    /// All seeds of a stretch, for this number of workers.
    pub fn new(stretch: Seeds, workers: u64) -> Dealer {
        let seeds = stretch.last.saturating_sub(stretch.first).saturating_add(1);
        let size = seeds
            .div_ceil(workers.saturating_mul(HANDS_EACH).max(1))
            .max(1);
        Dealer {
            stretch,
            size,
            hands: seeds.div_ceil(size),
            dealt: AtomicU64::new(0),
        }
    }

    /// How many hands there are.
    pub fn hands(&self) -> u64 {
        self.hands
    }

    /// The next hand, if there is one.
    pub fn next(&self) -> Option<Seeds>
        ensures { IfSome result (λ hand. hand.first ≤ hand.last) }
    {
        let number = self.dealt.fetch_add(1, Ordering::SeqCst);
        if number >= self.hands {
            return None;
        }
        let first = self
            .stretch
            .first
            .checked_add(number.checked_mul(self.size)?)?;
        let last = first.saturating_add(self.size - 1).min(self.stretch.last);
        (first <= last).then_some(Seeds { first, last })
    }

    /// No further hand is dealt. Those that were dealt have all seeds below the others.
    pub fn close(&self) {
        self.dealt.store(self.hands, Ordering::SeqCst);
    }
}
