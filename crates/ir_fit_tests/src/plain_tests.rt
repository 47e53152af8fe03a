//! `fit` beside a plain program, on all short traces of a small guest.

use crate::event_bytes::put;
use crate::guests::guest;
use crate::plain_fit::{Answer, broken, standing};
use ir_fit::{Cause, FitErr, Verdict, fit};
use ir_flat::Flat;
use ir_log::Event;
use ir_object::OpenGate;
use ir_runs::{EnvKind, ThreadVerdict};
use ir_thread::Profile;
use ir_trace::{Trace, read_trace};
use std::alloc::{AllocError, Global};
use std::test::Fail;

const BUDGET: u64 = 1000;

// One thread reads object 0, asks the clock and writes the object. The other writes the object, and ends inside it as a
// reader.
const CODE: [u32; 21] = [
    0x0070_0893, // addi a7, zero, 7
    0x73,
    0x0090_0893, // addi a7, zero, 9
    0x73,
    0x0040_0893, // addi a7, zero, 4
    0x73,
    0x0000_0513, // addi a0, zero, 0
    0x0080_0893, // addi a7, zero, 8
    0x73,
    0x0090_0893,
    0x73,
    0x0010_0893, // addi a7, zero, 1
    0x73,
    0x0080_0893, // the other thread
    0x73,
    0x0090_0893,
    0x73,
    0x0070_0893,
    0x73,
    0x0010_0893,
    0x73,
];

// Where each thread starts in the code, in bytes, and how many steps it takes: the other releases what it holds.
#[derive(Clone, Copy)]
struct Sides {
    starts: [u8; 2],
    steps: [u8; 2],
}

const READER_FIRST: Sides = Sides {
    starts: [0, 52],
    steps: [13, 9],
};

const WRITER_FIRST: Sides = Sides {
    starts: [52, 0],
    steps: [9, 13],
};

// The traces of a run are also tried with each number of steps below this, of either thread.
const MOST_STEPS: u8 = 15;

const fn read(version: u32) -> Event {
    Event::Read { object: 0, version }
}

const fn write(version: u32, readers: u32) -> Event {
    Event::Write {
        object: 0,
        version,
        readers,
    }
}

// How many events there are at each place of a list.
const KINDS: usize = 9;

// An answer of the clock, and the entries at all versions and with all readers that the guest's runs come to.
fn events() -> [Event; KINDS] {
    [
        Event::Answer(EnvKind::Clock, 5),
        read(0),
        read(1),
        read(2),
        write(0, 0),
        write(0, 1),
        write(1, 0),
        write(1, 1),
        write(1, 2),
    ]
}

// How many lists of at most three events there are.
const LISTS: usize = 1 + KINDS + KINDS * KINDS + KINDS * KINDS * KINDS;

// The list of a number: none at 0, then those of one event, of two and of three.
fn listed(alloc: Global, number: usize) -> Result<Vec<Event>, AllocError> {
    let mut list = Vec::new(alloc);
    let mut rest = number;
    for _ in 0..3 {
        let Some(below) = rest.checked_sub(1) else {
            break;
        };
        list.push(events()[below % KINDS])?;
        rest = below / KINDS;
    }
    Ok(list)
}

// Adds a thread's bytes: it ended with code 0.
fn put_thread(bytes: &mut Vec<u8>, steps: u8, events: &[Event]) -> Result<(), AllocError> {
    bytes.extend_from_slice(&[steps, 0, 0, 0, 0, 0, 0, 0, 1, 0, 0, 0, 0])?;
    bytes.extend_from_slice(&[(events.len() % 256) as u8, 0, 0, 0])?;
    for event in events {
        put(bytes, *event)?;
    }
    Ok(())
}

// The trace with these numbers of steps of the threads and these events.
fn traced(alloc: Global, steps: [u8; 2], first: &[Event], second: &[Event]) -> Result<Trace, Fail> {
    let mut bytes = Vec::new(alloc);
    bytes.extend_from_slice(&[
        0x49, 0x52, 0x54, 0x31, 2, 1, 0, 0, 0xe8, 0x03, 0, 0, 0, 0, 0, 0,
    ])?;
    put_thread(&mut bytes, steps[0], first)?;
    put_thread(&mut bytes, steps[1], second)?;
    Ok(read_trace(alloc, &bytes)?)
}

// What a refusal says.
fn refused(verdict: &Verdict) -> Answer {
    match verdict {
        Verdict::Header(_) => Answer::Unsettled,
        Verdict::Incoherent {
            thread,
            event,
            cause,
        } => Answer::Incoherent {
            thread: *thread,
            event: *event as usize,
            cause: *cause,
        },
        Verdict::Threads(verdicts) => match verdicts.as_slice() {
            [first, second] => Answer::Stands(*first, *second),
            _ => Answer::Unsettled,
        },
    }
}

// What `fit` answers.
fn by_fit(alloc: Global, starts: [u8; 2], trace: Trace) -> Result<Answer, Fail> {
    let image = guest(alloc, &starts, 1, &CODE)?;
    match fit(alloc, image, trace, &OpenGate) {
        Ok(_) => Ok(Answer::Fits),
        Err(FitErr::Refused(verdict)) => Ok(refused(&verdict)),
        Err(FitErr::NoMem) => Ok(Answer::Unsettled),
    }
}

// What the plain program answers.
fn plainly(
    alloc: Global,
    start: &Flat,
    trace: &Trace,
    first: &[Event],
    second: &[Event],
) -> Result<Answer, AllocError> {
    let mut events = Vec::new(alloc);
    events.extend_from_slice(first)?;
    events.extend_from_slice(second)?;
    match broken(&events, first.len()) {
        Some(answer) => Ok(answer),
        None => standing(alloc, start, trace),
    }
}

// How many traces have each kind of answer; how many with the events of a run, and all numbers of steps, have the same
// answer of both programs; and the lists of the last trace that has not.
#[derive(Clone, Copy)]
struct Tally {
    fits: u32,
    disagrees: u32,
    starves: u32,
    unmade: u32,
    twice: u32,
    readers: u32,
    by_steps: u32,
    differs: Option<(usize, usize)>,
}

impl Tally {
    fn count_cause(&mut self, cause: Cause) {
        let place = match cause {
            Cause::Unmade => &mut self.unmade,
            Cause::Twice => &mut self.twice,
            Cause::Readers => &mut self.readers,
        };
        *place = place.saturating_add(1);
    }

    // A trace is counted once for each of its threads that isn't the same.
    fn count_thread(&mut self, verdict: ThreadVerdict) {
        match verdict {
            ThreadVerdict::Same => {}
            ThreadVerdict::Disagrees { .. } => self.disagrees = self.disagrees.saturating_add(1),
            ThreadVerdict::Starves { .. } => self.starves = self.starves.saturating_add(1),
        }
    }

    fn count(&mut self, answer: Answer) {
        match answer {
            Answer::Fits => self.fits = self.fits.saturating_add(1),
            Answer::Incoherent { cause, .. } => self.count_cause(cause),
            Answer::Stands(first, second) => {
                self.count_thread(first);
                self.count_thread(second);
            }
            Answer::Unsettled => {}
        }
    }
}

// What both programs answer, where it is the same.
fn agreed(
    alloc: Global,
    start: &Flat,
    sides: Sides,
    first: &[Event],
    second: &[Event],
) -> Result<Option<Answer>, Fail> {
    let trace = traced(alloc, sides.steps, first, second)?;
    let answer = plainly(alloc, start, &trace, first, second)?;
    if answer == Answer::Unsettled || by_fit(alloc, sides.starts, trace)? != answer {
        return Ok(None);
    }
    Ok(Some(answer))
}

// How many of these traces, one for each pair of numbers of steps, have the same answer of both programs.
fn agreed_by_steps(
    alloc: Global,
    start: &Flat,
    starts: [u8; 2],
    first: &[Event],
    second: &[Event],
) -> Result<u32, Fail> {
    let mut count = 0u32;
    for number in 0..MOST_STEPS * MOST_STEPS {
        let steps = [number % MOST_STEPS, number / MOST_STEPS];
        let sides = Sides { starts, steps };
        if agreed(alloc, start, sides, first, second)?.is_some() {
            count = count.saturating_add(1);
        }
    }
    Ok(count)
}

// Counts the traces with the first thread's events of this number.
fn tally_first(
    alloc: Global,
    start: &Flat,
    sides: Sides,
    number: usize,
    tally: &mut Tally,
) -> Result<(), Fail> {
    let first = listed(alloc, number)?;
    for other in 0..LISTS {
        let second = listed(alloc, other)?;
        let answer = agreed(alloc, start, sides, &first, &second)?;
        match answer {
            None => tally.differs = Some((number, other)),
            Some(answer) => tally.count(answer),
        }
        if answer == Some(Answer::Fits) {
            let count = agreed_by_steps(alloc, start, sides.starts, &first, &second)?;
            tally.by_steps = tally.by_steps.saturating_add(count);
        }
    }
    Ok(())
}

// Counts all traces.
fn tally_all(alloc: Global, sides: Sides) -> Result<Tally, Fail> {
    let image = guest(alloc, &sides.starts, 1, &CODE)?;
    let start = Flat::start(alloc, &image, BUDGET, Profile::One)?;
    let mut tally = Tally {
        fits: 0,
        disagrees: 0,
        starves: 0,
        unmade: 0,
        twice: 0,
        readers: 0,
        by_steps: 0,
        differs: None,
    };
    for number in 0..LISTS {
        tally_first(alloc, &start, sides, number, &mut tally)?;
    }
    Ok(tally)
}

#[test]
fn fit_answers_as_the_plain_program(rt: HostRuntime) -> Result<(), Fail> {
    let tally = tally_all(rt.alloc(), READER_FIRST)?;
    assert_eq!(rt; tally.differs, None);
    // Five traces: of the six orders of the four entries, two have the same one.
    assert_eq!(rt; tally.fits, 5);
    assert_eq!(rt; tally.by_steps, 5 * 15 * 15);
    assert!(rt; tally.disagrees > 0);
    assert!(rt; tally.starves > 0);
    assert!(rt; tally.unmade > 0);
    assert!(rt; tally.twice > 0);
    assert!(rt; tally.readers > 0);
    Ok(())
}

// Here a writer is looked at before its readers have left.
#[test]
fn fit_answers_so_with_the_threads_exchanged(rt: HostRuntime) -> Result<(), Fail> {
    let tally = tally_all(rt.alloc(), WRITER_FIRST)?;
    assert_eq!(rt; tally.differs, None);
    assert_eq!(rt; tally.fits, 5);
    assert_eq!(rt; tally.by_steps, 5 * 15 * 15);
    assert!(rt; tally.starves > 0);
    Ok(())
}
