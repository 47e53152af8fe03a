//! Guests whose threads wait for one object, recorded as a plain round robin takes their steps one by one.

ghost use Rattle.ir_thread.specs.State.{IsAllowed};
ghost use Rattle.ir_thread.specs.declared.profile.Profile.TheVariants.{One};

use crate::guests::Source;
use crate::recorded_guests::{EIGHT_OF_BOTH, EIGHT_WRITERS, THREE_OF_BOTH, THREE_WRITERS};
use crate::recordings::in_order;
use crate::sources::image_of;
use ir_flat::Flat;
use ir_image::Image;
use ir_log::Event;
use ir_runs::Access;
use ir_thread::{Ask, Profile};
use ir_trace::{ThreadTrace, Trace};
use std::alloc::Global;
use std::test::Fail;

const BUDGET: u64 = 1000;

// A guest whose steps are taken one by one, and the entries of its threads.
#[derive(Drop)]
struct Plain<'a> {
    flat: Flat<'a>,
    entries: Vec<Vec<Event>>,
}

impl<'a> Plain<'a> {
    fn start(alloc: Global, image: &'a Image) -> Result<Plain<'a>, Fail>
        requires { IsAllowed One image.now }
    {
        let mut entries = Vec::new(alloc);
        for _ in image.entries() {
            entries.push(Vec::new(alloc))?;
        }
        Ok(Plain {
            flat: Flat::start(alloc, image, BUDGET, Profile::One)?,
            entries,
        })
    }

    // What is logged if thread t takes its next step, and that is an entry.
    fn entry(&self, t: usize) -> Option<Event> {
        if t >= self.flat.threads().len() {
            return None;
        }
        let Ask::Enter(object, access) = self.flat.ask(t) else {
            return None;
        };
        let fields = self.flat.objects().get(object as usize)?.fields();
        let version = fields.version;
        Some(match access {
            Access::Reading => Event::Read { object, version },
            Access::Writing => Event::Write {
                object,
                version,
                readers: fields.left,
            },
        })
    }

    // Thread t takes its next step, if it has one; and whether it had.
    fn turn(&mut self, t: usize) -> Result<bool, Fail> {
        let entry = self.entry(t);
        if t >= self.flat.threads().len() || self.flat.step(t, 0).is_err() {
            return Ok(false);
        }
        if let (Some(event), Some(entries)) = (entry, self.entries.get_mut(t)) {
            entries.push(event)?;
        }
        Ok(true)
    }

    // A turn of each thread; and whether one of them had a step.
    fn round(&mut self) -> Result<bool, Fail> {
        let mut moved = false;
        for t in 0..self.flat.threads().len() {
            if self.turn(t)? {
                moved = true;
            }
        }
        Ok(moved)
    }

    // The turns of the order, and then rounds until no thread has a step.
    fn run(&mut self, order: &[u8]) -> Result<(), Fail> {
        for t in order {
            self.turn(*t as usize)?;
        }
        for _ in 0..10_000 {
            if !self.round()? {
                return Ok(());
            }
        }
        Ok(())
    }

    // How many entries all threads logged.
    fn entry_count(&self) -> usize {
        let mut count = 0usize;
        for thread in self.entries.as_slice() {
            count = count.saturating_add(thread.len());
        }
        count
    }

    // Whether the trace of thread t says what the thread did.
    fn is_emitted(&self, t: usize, emitted: &ThreadTrace) -> bool {
        let (Some(thread), Some(entries)) = (self.flat.threads().get(t), self.entries.get(t)) else {
            return false;
        };
        emitted.steps() == thread.steps()
            && Some(emitted.end()) == thread.ended()
            && emitted.log().events() == entries.as_slice()
    }

    // Whether the trace says what all threads did.
    fn are_emitted(&self, trace: &Trace) -> bool {
        let threads = trace.threads();
        for t in 0..threads.len() {
            if !self.is_emitted(t, &threads[t]) {
                return false;
            }
        }
        threads.len() == self.flat.threads().len()
    }
}

// The guest after the turns of the order.
fn plain_run<'a>(alloc: Global, image: &'a Image, order: &[u8]) -> Result<Plain<'a>, Fail>
    requires { IsAllowed One image.now }
{
    let mut plain = Plain::start(alloc, image)?;
    plain.run(order)?;
    Ok(plain)
}

// Whether a recording by the order is what the plain turns make.
fn is_alike(alloc: Global, image: &Image, order: &[u8]) -> Result<bool, Fail>
    requires { IsAllowed One image.now }
{
    let (trace, _outputs) = in_order(alloc, image, order, &[], BUDGET)?;
    let plain = plain_run(alloc, image, order)?;
    Ok(plain.are_emitted(&trace))
}

// The same of the source's guest.
fn is_plain(alloc: Global, source: Source, order: &[u8]) -> Result<bool, Fail> {
    let image = image_of(alloc, source)?;
    is_alike(alloc, &image, order)
}

// A guest, and an order that leaves no thread in the object, the first, another one, and some of eight.
type Waiting = (Source, &'static [u8]);

const WRITERS: [Waiting; 4] = [
    (THREE_WRITERS, &[]),
    (THREE_WRITERS, &[0; 14]),
    (THREE_WRITERS, &[2; 22]),
    (EIGHT_WRITERS, &[7, 1, 3]),
];

const BOTH: [Waiting; 4] = [
    (THREE_OF_BOTH, &[]),
    (THREE_OF_BOTH, &[0; 14]),
    (THREE_OF_BOTH, &[2; 22]),
    (EIGHT_OF_BOTH, &[7, 1, 3]),
];

#[test]
fn writers_wait_for_each_other(rt: HostRuntime) -> Result<(), Fail> {
    for &(source, order) in &WRITERS {
        assert!(rt; is_plain(rt.alloc(), source, order)?);
    }
    Ok(())
}

#[test]
fn readers_and_writers_wait_for_each_other(rt: HostRuntime) -> Result<(), Fail> {
    for &(source, order) in &BOTH {
        assert!(rt; is_plain(rt.alloc(), source, order)?);
    }
    Ok(())
}

// How many entries there are in rounds.
fn entries_in_rounds(alloc: Global, source: Source) -> Result<usize, Fail> {
    let image = image_of(alloc, source)?;
    let plain = plain_run(alloc, &image, &[])?;
    Ok(plain.entry_count())
}

#[test]
fn a_round_robin_ends(rt: HostRuntime) -> Result<(), Fail> {
    assert_eq!(rt; entries_in_rounds(rt.alloc(), THREE_WRITERS)?, 3 + 4 + 5);
    Ok(())
}
