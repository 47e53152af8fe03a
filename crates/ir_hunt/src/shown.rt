//! How many seeds were tried, on standard error.

use ir_schedule::Seeds;
use ir_world::millis_since;
use std::time::{Clock, Instant};

/// Erases the terminal's row and goes to its first column (EL of ECMA-48).
pub const ERASED: &str = "\r\x1b[K";

/// Erases the row and begins a line that stays in it: the terminal cuts what is longer at its right edge (mode DECAWM of the VT100, off).
pub const ROW: &str = "\r\x1b[K\x1b[?7l";

/// Ends such a line. The cursor stays behind it, so if Ctrl-C ends the program there, the line stands whole and the shell begins another.
pub const ROW_END: &str = "\x1b[?7h";

/// What is shown of a hunt on the way, once a second.
#[derive(Clone, Copy, Debug)]
pub struct Shown {
    // None if the clock can't be read.
    start: Option<Instant>,
    is_shown: bool,
    // Whether its line stands on the terminal.
    stands: bool,
    // The milliseconds since the start at the end of the last stretch.
    millis: u32,
    seeds: u64,
}

impl Shown {
    /// Before the first seed.
    pub fn new<R: Clock>(rt: &R, is_shown: bool) -> Shown {
        Shown {
            start: Instant::now(rt).ok(),
            is_shown,
            stands: false,
            millis: 0,
            seeds: 0,
        }
    }

    // Shows how many seeds were tried so far and in each second, and the last of them.
    fn show<R: Eprint>(&mut self, rt: &R, last: u64) {
        self.stands = true;
        let seconds = (self.millis / 1000).max(1) as u64;
        let (seeds, rate) = (self.seeds, self.seeds / seconds);
        let _ = rt.eprint(format_args!(
            "{ROW}{seeds} seeds, {rate} per second, up to {last}{ROW_END}"
        ));
    }

    /// A stretch was tried: how many milliseconds it took. It is shown if a second has passed.
    pub fn tried<R: Clock + Eprint>(&mut self, rt: &R, stretch: Seeds) -> u32 {
        let more = stretch.last.saturating_sub(stretch.first).saturating_add(1);
        self.seeds = self.seeds.saturating_add(more);
        let Some(millis) = self.start.and_then(|start| millis_since(rt, start)) else {
            return 0;
        };
        let before = self.millis;
        self.millis = millis;
        if self.is_shown && millis / 1000 != before / 1000 {
            self.show(rt, stretch.last);
        }
        millis.saturating_sub(before)
    }

    /// Whether so many seconds have passed since the start, or the clock can't be read.
    pub fn has_lasted<R: Clock>(&self, rt: &R, seconds: u32) -> bool {
        match self.start.and_then(|start| millis_since(rt, start)) {
            Some(millis) => millis / 1000 >= seconds,
            None => true,
        }
    }

    /// Takes its line off the terminal, if one stands there.
    pub fn end<R: Eprint>(&mut self, rt: &R) {
        if self.stands {
            self.stands = false;
            let _ = rt.eprint(format_args!("{ERASED}"));
        }
    }
}
