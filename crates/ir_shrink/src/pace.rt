//! How long a search may take, and what is shown of it on the way.

ghost use Rattle.std.specs.Prelude.{◌≡◌, ℕ, Some, true};

use ir_hunt::{ERASED, ROW, ROW_END};
use ir_world::millis_since;
use std::time::{Clock, Instant};

/// When a search began, and how many seconds it may take.
#[derive(Clone, Copy, Debug)]
pub struct Pace {
    // None if the clock can't be read.
    start: Option<Instant>,
    seconds: Option<u32>,
    // Whether it is shown on standard error how many switches are left.
    is_shown: bool,
}

impl Pace {
    /// From now on.
    pub fn new<R: Clock>(rt: &R, seconds: Option<u32>, is_shown: bool) -> Pace
        ensures { result.seconds ≡ seconds }
    {
        Pace {
            start: Instant::now(rt).ok(),
            seconds,
            is_shown,
        }
    }

    /// Shows how many switches are left, if that is wanted.
    pub fn show<R: Eprint>(&self, rt: &R, switches: u64) {
        if self.is_shown {
            let _ = rt.eprint(format_args!("{ROW}{switches} switches are left{ROW_END}"));
        }
    }

    /// Takes what it shows off the terminal.
    pub fn end<R: Eprint>(&self, rt: &R) {
        if self.is_shown {
            let _ = rt.eprint(format_args!("{ERASED}"));
        }
    }

    // Whether so many seconds have passed since the start, or the clock can't be read.
    fn has_lasted<R: Clock>(&self, rt: &R, seconds: u32) -> bool {
        match self.start.and_then(|start| millis_since(rt, start)) {
            Some(millis) => millis / 1000 >= seconds,
            None => true,
        }
    }

    /// Whether the time is over, if it is bounded.
    pub fn is_over<R: Clock>(&self, rt: &R) -> bool
        ensures { result ≡ true → (s : ℕ) × (self.now.seconds ≡ Some s) }
    {
        match self.seconds {
            Some(seconds) => self.has_lasted(rt, seconds),
            None => false,
        }
    }
}
