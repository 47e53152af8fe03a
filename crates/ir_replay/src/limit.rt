//! When a round of workers ends.

use std::sync::atomic::{AtomicBool, Ordering};
use std::time::{Clock, Duration, Instant};

/// When a round ends in which workers wait.
#[derive(Drop)]
pub struct Limit {
    // None if the clock can't be read.
    start: Option<Instant>,
    most: Duration,
    // Whether a worker ended its round below its target.
    ended: AtomicBool,
}

impl Limit {
    // For a round that begins now and may last so many milliseconds.
    pub fn new(clock: &impl Clock, millis: u32) -> Limit {
        Limit {
            start: Instant::now(clock).ok(),
            most: Duration::from_millis(millis as u64),
            ended: AtomicBool::new(false),
        }
    }

    // Whether it has lasted as long as it may.
    pub fn is_reached(&self, clock: &impl Clock) -> bool {
        match self.start.and_then(|start| start.elapsed(clock).ok()) {
            Some(elapsed) => elapsed >= self.most,
            None => false,
        }
    }

    // Whether a worker has ended its round below its target.
    pub fn is_ended(&self) -> bool {
        self.ended.load(Ordering::Relaxed)
    }

    // A worker ends its round so.
    pub fn end(&self) {
        self.ended.store(true, Ordering::Relaxed);
    }
}
