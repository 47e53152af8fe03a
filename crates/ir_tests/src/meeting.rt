//! Gates at which threads wait for each other, or let each other run.

use ir_object::Gate;
use ir_runs::Access;
use std::sync::atomic::{AtomicBool, AtomicUsize, Ordering};
use std::thread::yield_now;

// The turns that a thread waits for the other at most, each of which lets others run.
const MOST_TURNS: usize = 1_000_000;

// Waits until `wanted` are counted. Whether they are.
fn is_reached(count: &AtomicUsize, wanted: usize) -> bool {
    for _ in 0..MOST_TURNS {
        if count.load(Ordering::SeqCst) >= wanted {
            return true;
        }
        yield_now();
    }
    false
}

// Holds whoever enters until two have entered.
#[derive(Drop)]
pub struct Meeting {
    entries: AtomicUsize,
    // Whether one waited in vain.
    missed: AtomicBool,
}

impl Meeting {
    pub fn new() -> Meeting {
        Meeting {
            entries: AtomicUsize::new(0),
            missed: AtomicBool::new(false),
        }
    }

    /// How often a thread entered.
    pub fn entries(&self) -> usize {
        self.entries.load(Ordering::SeqCst)
    }

    pub fn missed(&self) -> bool {
        self.missed.load(Ordering::SeqCst)
    }
}

impl Gate for Meeting {
    fn entered(&self, _thread: u8, _object: u8, _access: Access) {
        self.entries.fetch_add(1, Ordering::SeqCst);
        if !is_reached(&self.entries, 2) {
            self.missed.store(true, Ordering::SeqCst);
        }
    }

    fn leaving(&self, _thread: u8, _object: u8, _access: Access) {}
}

// Holds thread 0 in object 1 until thread 1 is in object 2, and thread 1 there until thread 0 is in object 0.
#[derive(Drop)]
pub struct Handing {
    // Of the last two entries, how many there were.
    entries: AtomicUsize,
    // Whether one waited in vain.
    missed: AtomicBool,
}

impl Handing {
    pub fn new() -> Handing {
        Handing {
            entries: AtomicUsize::new(0),
            missed: AtomicBool::new(false),
        }
    }

    pub fn missed(&self) -> bool {
        self.missed.load(Ordering::SeqCst)
    }

    fn wait(&self, entries: usize) {
        if !is_reached(&self.entries, entries) {
            self.missed.store(true, Ordering::SeqCst);
        }
    }
}

impl Gate for Handing {
    fn entered(&self, thread: u8, object: u8, _access: Access) {
        match (thread, object) {
            (0, 1) => self.wait(1),
            (1, 2) => {
                self.entries.fetch_add(1, Ordering::SeqCst);
                self.wait(2);
            }
            (0, 0) => {
                self.entries.fetch_add(1, Ordering::SeqCst);
            }
            _ => {}
        }
    }

    fn leaving(&self, _thread: u8, _object: u8, _access: Access) {}
}

// Holds thread 1 before its first call until thread 0 is inside an object, and thread 0 there until thread 1 comes to its
// second call.
#[derive(Drop)]
pub struct Refusing {
    // How often thread 0 entered.
    entries: AtomicUsize,
    // How often thread 1 came to a call.
    calls: AtomicUsize,
    // Whether one waited in vain.
    missed: AtomicBool,
}

impl Refusing {
    pub fn new() -> Refusing {
        Refusing {
            entries: AtomicUsize::new(0),
            calls: AtomicUsize::new(0),
            missed: AtomicBool::new(false),
        }
    }

    pub fn missed(&self) -> bool {
        self.missed.load(Ordering::SeqCst)
    }

    fn wait(&self, count: &AtomicUsize, wanted: usize) {
        if !is_reached(count, wanted) {
            self.missed.store(true, Ordering::SeqCst);
        }
    }
}

impl Gate for Refusing {
    fn entered(&self, thread: u8, _object: u8, _access: Access) {
        if thread == 0 {
            self.entries.fetch_add(1, Ordering::SeqCst);
            self.wait(&self.calls, 2);
        }
    }

    fn leaving(&self, _thread: u8, _object: u8, _access: Access) {}

    fn stepped(&self, thread: u8, _steps: u64) {
        if thread == 1 {
            self.calls.fetch_add(1, Ordering::SeqCst);
            self.wait(&self.entries, 1);
        }
    }
}

// Lets other threads run after each entry, for up to six turns, which differ from entry to entry.
#[derive(Drop)]
pub struct Yielding {
    entries: AtomicUsize,
}

impl Yielding {
    pub fn new() -> Yielding {
        Yielding {
            entries: AtomicUsize::new(0),
        }
    }
}

impl Gate for Yielding {
    fn entered(&self, _thread: u8, _object: u8, _access: Access) {
        for _ in 0..self.entries.fetch_add(1, Ordering::SeqCst) % 7 {
            yield_now();
        }
    }

    fn leaving(&self, _thread: u8, _object: u8, _access: Access) {}
}

// What is reported of object 0 by threads 0 and 1: their entries and their leaves.
pub type Told = [(usize, usize); 2];

// Counts what is reported to it, and passes it to another gate.
#[derive(Drop)]
pub struct Counting<'a, G> {
    inner: &'a G,
    // Of object 0, by each thread.
    entries: [AtomicUsize; 2],
    leaves: [AtomicUsize; 2],
    // Of another object, or by another thread.
    others: AtomicUsize,
}

impl<'a, G> Counting<'a, G> {
    pub fn new(inner: &'a G) -> Counting<'a, G> {
        Counting {
            inner,
            entries: [AtomicUsize::new(0), AtomicUsize::new(0)],
            leaves: [AtomicUsize::new(0), AtomicUsize::new(0)],
            others: AtomicUsize::new(0),
        }
    }

    fn count(&self, counts: &[AtomicUsize; 2], thread: u8, object: u8) {
        let counted = match (counts.get(thread as usize), object) {
            (Some(own), 0) => own,
            _ => &self.others,
        };
        counted.fetch_add(1, Ordering::SeqCst);
    }

    // What was reported, if it was of object 0 by threads 0 and 1 alone.
    pub fn told(&self) -> Option<Told> {
        let [first, second] = &self.entries;
        let [first_leaves, second_leaves] = &self.leaves;
        let told = [
            (
                first.load(Ordering::SeqCst),
                first_leaves.load(Ordering::SeqCst),
            ),
            (
                second.load(Ordering::SeqCst),
                second_leaves.load(Ordering::SeqCst),
            ),
        ];
        (self.others.load(Ordering::SeqCst) == 0).then_some(told)
    }
}

impl<G: Gate> Gate for Counting<'_, G> {
    fn entered(&self, thread: u8, object: u8, access: Access) {
        self.count(&self.entries, thread, object);
        self.inner.entered(thread, object, access);
    }

    fn leaving(&self, thread: u8, object: u8, access: Access) {
        self.count(&self.leaves, thread, object);
        self.inner.leaving(thread, object, access);
    }

    fn stepped(&self, thread: u8, steps: u64) {
        self.inner.stepped(thread, steps);
    }
}
