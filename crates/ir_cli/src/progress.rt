//! How far what takes long is.

ghost use Rattle.std.specs.Prelude.{◌≡◌};

use crossbeam_utils::CachePadded;
use ir_hunt::{ERASED, ROW, ROW_END};
use ir_image::MOST_THREADS;
use ir_object::Gate;
use ir_runs::Access;
use ir_search::Observer;
use ir_stream::{DeviceErr, Sink};
use ir_world::millis_since;
use std::array;
use std::sync::atomic::{AtomicBool, AtomicU32, AtomicU64, AtomicUsize, Ordering};
use std::time::{Clock, Instant};

// A thread looks at the clock once in this number of its steps.
const STEPS_FOR_A_LOOK: u64 = 1 << 22;

// Stands for the second of a show where there was none yet.
const NEVER: u32 = u32::MAX;

// How many states are found between two looks at the clock.
const STATES_FOR_A_LOOK: usize = 1 << 12;

// A search whose seconds are bounded looks at the clock once in this number of times that it asks.
const ASKS_FOR_A_LOOK: u64 = 1 << 4;

/// Shows on standard error, once a second, how many steps all threads have taken since the program wrote something last: of a
/// recording the private ones; of a search for all outcomes how many states and outcomes it has found, after how many switches.
/// Where gdb waits for its first reply, a `+` goes to standard output as often: gdb gives up if no byte comes for some seconds, and
/// passes over a `+` before a packet.
#[derive(Drop)]
pub struct Progress<'a, R> {
    rt: &'a R,
    // When it was made; None where the clock couldn't be read.
    made: Option<Instant>,
    // None where nothing is shown, and gdb isn't kept waiting.
    start: Option<Instant>,
    // Whether steps are shown.
    is_shown: bool,
    // Whether gdb is kept waiting, which has been written nothing yet.
    keeps_gdb: AtomicBool,
    // Of each thread, which alone writes it.
    steps: [CachePadded<AtomicU64>; MOST_THREADS as usize],
    // The second in which it was shown last.
    shown: AtomicU32,
    // Whether its line stands on the terminal.
    stands: AtomicBool,
    // How many outcomes a search has found.
    outcomes: AtomicUsize,
    // How often a search has asked whether its seconds are over.
    asked: AtomicU64,
}

impl<'a, R: Clock> Progress<'a, R> {
    /// Shows steps from now on, and keeps gdb waiting, if it is to do so and the clock can be read.
    pub fn new(rt: &'a R, is_shown: bool, keeps_gdb: bool) -> Progress<'a, R> {
        let made = Instant::now(rt).ok();
        Progress {
            rt,
            made,
            start: if is_shown || keeps_gdb { made } else { None },
            is_shown,
            keeps_gdb: AtomicBool::new(keeps_gdb),
            steps: array::from_fn(|_| CachePadded::new(AtomicU64::new(0))),
            shown: AtomicU32::new(NEVER),
            stands: AtomicBool::new(false),
            outcomes: AtomicUsize::new(0),
            asked: AtomicU64::new(0),
        }
    }
}

impl<R: Clock + Print + Eprint> Progress<'_, R> {
    // Whether nothing was shown in this second. The first second is that of the first look.
    fn is_due(&self, start: Instant) -> bool {
        let Some(millis) = millis_since(self.rt, start) else {
            return false;
        };
        let second = millis / 1000;
        let last = self.shown.load(Ordering::Relaxed);
        let is_first = self
            .shown
            .compare_exchange(last, second, Ordering::Relaxed, Ordering::Relaxed)
            .is_ok();
        second != last && last != NEVER && is_first
    }

    // Shows the sum.
    fn show_steps(&self) {
        self.stands.store(true, Ordering::Relaxed);
        let mut sum = 0u64;
        for steps in &self.steps {
            sum = sum.saturating_add(steps.load(Ordering::Relaxed));
        }
        let millions = sum / 1_000_000;
        let _ = self
            .rt
            .eprint(format_args!("{ROW}{millions} million steps{ROW_END}"));
    }

    // Counts steps of a thread, and now and then shows the sum.
    fn count(&self, start: Instant, thread: u8, steps: u64) {
        let Some(own) = self.steps.get(thread as usize) else {
            return;
        };
        let before = own.load(Ordering::Relaxed);
        let after = before.saturating_add(steps);
        own.store(after, Ordering::Relaxed);
        if before / STEPS_FOR_A_LOOK != after / STEPS_FOR_A_LOOK && self.is_due(start) {
            self.tell();
        }
    }

    // Shows the sum, and keeps gdb waiting.
    fn tell(&self) {
        if self.keeps_gdb.load(Ordering::Relaxed) {
            let _ = self.rt.write_all(b"+");
        }
        if self.is_shown {
            self.show_steps();
        }
    }

    // Takes its line off the terminal, if one stands there, and counts anew.
    fn begin_anew(&self) {
        if self.start.is_none() {
            return;
        }
        self.keeps_gdb.store(false, Ordering::Relaxed);
        if self.stands.swap(false, Ordering::Relaxed) {
            let _ = self.rt.eprint(format_args!("{ERASED}"));
        }
        for steps in &self.steps {
            steps.store(0, Ordering::Relaxed);
        }
        self.shown.store(NEVER, Ordering::Relaxed);
    }
}

impl<R: Clock + Print + Eprint> Gate for Progress<'_, R> {
    fn entered(&self, _thread: u8, _object: u8, _access: Access) {}

    fn leaving(&self, _thread: u8, _object: u8, _access: Access) {}

    // A recording calls it before each step that isn't private. Where nothing is shown it is a test there, and no call.
    #[inline(always)]
    fn stepped(&self, thread: u8, steps: u64) {
        if let Some(start) = self.start {
            self.count(start, thread, steps);
        }
    }
}

impl<R: Clock + Print + Eprint> Observer for Progress<'_, R> {
    fn searched(&self, states: usize, switches: usize) {
        let Some(start) = self.start else {
            return;
        };
        if states % STATES_FOR_A_LOOK != 0 || !self.is_due(start) {
            return;
        }
        self.stands.store(true, Ordering::Relaxed);
        // A search for more switches begins again: none of its outcomes is known before its first level ends.
        let outcomes = match switches {
            0 => 0,
            _ => self.outcomes.load(Ordering::Relaxed),
        };
        let _ = self.rt.eprint(format_args!(
            "{ROW}{states} states, {switches} switches, {outcomes} outcomes{ROW_END}"
        ));
    }

    fn listed(&self, outcomes: usize) {
        self.outcomes.store(outcomes, Ordering::Relaxed);
    }

    // Counted from where it was made. Without a clock they are over.
    fn is_over(&self, seconds: u32) -> bool {
        let asked = self.asked.fetch_add(1, Ordering::Relaxed);
        if asked % ASKS_FOR_A_LOOK != 0 {
            return false;
        }
        let Some(made) = self.made else {
            return true;
        };
        match millis_since(self.rt, made) {
            Some(millis) => millis / 1000 >= seconds,
            None => true,
        }
    }
}

/// A sink that takes the line of the progress off the terminal before it writes, and lets it count anew.
#[derive(Drop)]
pub struct Wiping<'a, S, R> {
    sink: S,
    progress: &'a Progress<'a, R>,
}

impl<'a, S: Sink, R> Wiping<'a, S, R> {
    /// The sink, beside the progress.
    pub fn new(sink: S, progress: &'a Progress<'a, R>) -> Wiping<'a, S, R>
        ensures written { S.written result.sink ≡ S.written sink }
        ensures broken { S.broken result.sink ≡ S.broken sink }
    {
        Wiping { sink, progress }
    }
}

impl<S: Sink, R: Clock + Print + Eprint> Sink for Wiping<'_, S, R> {
    ghost written = { λ w. S.written w.sink };

    ghost broken = { λ w. S.broken w.sink };

    fn write(&mut self, bytes: &[u8]) -> Result<usize, DeviceErr> {
        self.progress.begin_anew();
        self.sink.write(bytes)
    }

    fn failed(&self) -> bool {
        self.sink.failed()
    }
}
