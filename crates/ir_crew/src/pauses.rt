//! How a thread waits for an object that others use.

use std::{hint, thread};

// The longest pause before a look, in hints to the processor, as a power of two: some 2 to 20 microseconds. By then the
// thread has waited as long, so a pause at most doubles its wait. Those that use the object have it to themselves
// meanwhile: each look takes its cache line from them. `crossbeam_utils::Backoff` ends at 2^6.
const LONGEST: u32 = 9;

// After how many looks it also gives its processor away before each: who is inside may have none.
const LOOKS_AWAKE: u32 = LONGEST + 4;

/// The pauses of a thread that looks at an object again and again, until it can enter.
#[derive(Drop)]
pub struct Pauses {
    looks: u32,
}

impl Pauses {
    // Before the first.
    pub fn new() -> Pauses {
        Pauses { looks: 0 }
    }

    // Waits a moment, for twice as long as before up to the longest pause.
    pub fn pause(&mut self) {
        for _ in 0..1u32 << self.looks.min(LONGEST) {
            hint::spin_loop();
        }
        if self.looks < LOOKS_AWAKE {
            self.looks += 1;
        } else {
            thread::yield_now();
        }
    }
}
