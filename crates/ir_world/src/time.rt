//! What a thread is answered when it asks for the time.

ghost use Rattle.std.specs.Prelude.{◌≡◌, ◌/◌, ◌%◌, ◌^◌};
ghost use Rattle.std.specs.Duration.{as_nanos};

use std::time::{Clock, Duration, Instant};

/// Where a thread's time comes from.
#[derive(Clone, Copy)]
pub enum Time {
    /// The thread's calls for it are counted, from 0.
    Counted,
    /// A clock, which read this when the recording started.
    Since(Instant),
}

// Whole milliseconds, modulo 2^32.
fn millis(elapsed: Duration) -> u32
    ensures { result ≡ as_nanos elapsed / 1_000_000 % 2 ^ 32 }
{
    (elapsed.as_millis() % (1 << 32)) as u32
}

/// The milliseconds that the clock has counted since the start, modulo 2^32; none where it can't be read.
pub fn millis_since(clock: &impl Clock, start: Instant) -> Option<u32> {
    match start.elapsed(clock) {
        Ok(elapsed) => Some(millis(elapsed)),
        Err(_) => None,
    }
}
