//! Guests of a few instructions, recorded in an order, with worlds that answer from a list.

ghost use Rattle.ir_thread.specs.State.{IsAllowed};
ghost use Rattle.ir_thread.specs.declared.profile.Profile.TheVariants.{One};

use crate::guests::{BROKEN_INSIDE, DOUBLED, READ_THEN_WRITE, Source, TWO_COUNTERS};
use crate::recorded_guests::{ASKING, FALLING, NEGATIVE, TWO_ASKING};
use crate::recordings::{Recorded, in_order, source_in_order};
use crate::sources::image_of;
use crate::traces::{FIRST_FIRST, READ_AND_WRITTEN, SECOND_FIRST, TraceRow, is_trace};
use crate::worlds::{FAILS, worlds};
use ir_image::Image;
use ir_log::Event;
use ir_record::{RecordErr, Turns, record_in_turns};
use ir_runs::EnvKind;
use ir_thread::Profile;
use ir_trace::Trace;
use std::alloc::Global;
use std::test::Fail;

// A guest, an order, and the trace.
type Ordered = (Source, &'static [u8], TraceRow);

const ORDERED: [Ordered; 4] = [
    // The order says who is first.
    (TWO_COUNTERS, &[1; 18], SECOND_FIRST),
    // Rounds begin with the first thread.
    (TWO_COUNTERS, &[], FIRST_FIRST),
    // An entry that is no thread takes no step.
    (TWO_COUNTERS, &[2, 7, 255, 1, 1, 1], SECOND_FIRST),
    // A writer logs the readers that left.
    (READ_THEN_WRITE, &[], READ_AND_WRITTEN),
];

fn is_ordered(alloc: Global, row: Ordered) -> Result<bool, Fail> {
    let (source, order, wanted) = row;
    let (trace, _outputs) = source_in_order(alloc, source, order, &[], 1000)?;
    is_trace(alloc, &trace, wanted)
}

#[test]
fn the_order_says_who_is_first(rt: HostRuntime) -> Result<(), Fail> {
    for &row in &ORDERED {
        assert!(rt; is_ordered(rt.alloc(), row)?);
    }
    Ok(())
}

// As many turns of a thread as there may be.
fn most_turns(thread: u8) -> Turns {
    Turns {
        thread,
        count: u64::MAX,
    }
}

// The guest recorded in such turns of this thread.
fn turned(alloc: Global, image: &Image, thread: u8) -> Recorded
    requires { IsAllowed One image.now }
{
    let worlds = worlds(alloc, image.entries().len(), &[], FAILS)?;
    let order = [most_turns(thread), most_turns(thread)];
    record_in_turns(alloc, image, &order, worlds, 1000, Profile::One)
}

// Whether they lead to the trace.
fn is_turned(alloc: Global, thread: u8, wanted: TraceRow) -> Result<bool, Fail> {
    let image = image_of(alloc, TWO_COUNTERS)?;
    let (trace, _outputs) = turned(alloc, &image, thread)?;
    is_trace(alloc, &trace, wanted)
}

const TURNED: [(u8, TraceRow); 3] = [(0, FIRST_FIRST), (1, SECOND_FIRST), (2, FIRST_FIRST)];

// Turns that a thread hasn't take no time, however many they are.
#[test]
fn many_turns_are_no_many_steps(rt: HostRuntime) -> Result<(), Fail> {
    for &(thread, wanted) in &TURNED {
        assert!(rt; is_turned(rt.alloc(), thread, wanted)?);
    }
    Ok(())
}

// The number of a thread's end, its code, its steps and how many events it logs.
pub type Run = (u8, u32, u64, usize);

// That of the first thread.
pub fn first(trace: &Trace) -> Option<Run> {
    let thread = trace.threads().first()?;
    Some((
        thread.end().number(),
        thread.end().code(),
        thread.steps(),
        thread.log().events().len(),
    ))
}

// A guest of one thread, its budget, its run, and what it prints.
type Alone = (Source, u64, Run, &'static [u8]);

const ALONE: [Alone; 4] = [
    // What is held at the end is released.
    (BROKEN_INSIDE, 1000, (2, 0, 9, 1), b""),
    // Entries rise.
    (FALLING, 1000, (10, 0, 6, 1), b""),
    // A budget ends a thread.
    (DOUBLED, 2, (13, 0, 3, 0), b""),
    // Numbers are printed with their sign.
    (NEGATIVE, 1000, (5, 0, 6, 0), b"-1\n-2147483648\n"),
];

fn is_alone(alloc: Global, row: Alone) -> Result<bool, Fail> {
    let (source, budget, run, printed) = row;
    let (trace, outputs) = source_in_order(alloc, source, &[], &[], budget.min(1000))?;
    let Some(output) = outputs.each.as_slice().first() else {
        return Ok(false);
    };
    let is_run = first(&trace) == Some(run) && trace.budget() == budget;
    Ok(is_run && output.bytes.as_slice() == printed)
}

#[test]
fn one_thread_is_recorded(rt: HostRuntime) -> Result<(), Fail> {
    for &row in &ALONE {
        assert!(rt; is_alone(rt.alloc(), row)?);
    }
    Ok(())
}

const ANSWERS: [Event; 2] = [
    Event::Answer(EnvKind::Clock, 3),
    Event::Answer(EnvKind::Random, 4),
];

// The run of a thread that asks twice, whether it logs the answers, and how many of three are left.
fn asked(alloc: Global) -> Result<(Option<Run>, bool, Option<usize>), Fail> {
    let (trace, outputs) = source_in_order(alloc, ASKING, &[], &[9, 4, 3], 1000)?;
    let events = trace.threads().first().map(|t| t.log().events());
    let left = outputs.each.as_slice().first().map(|o| o.world.left());
    Ok((first(&trace), events == Some(ANSWERS.as_slice()), left))
}

#[test]
fn answers_are_logged(rt: HostRuntime) -> Result<(), Fail> {
    assert_eq!(rt; asked(rt.alloc())?, (Some((1, 4, 6, 2)), true, Some(1)));
    Ok(())
}

// The thread whose world failed, and how many worlds came back.
fn failed_of(recorded: Recorded) -> Result<Option<(u8, usize)>, Fail> {
    match recorded {
        Err(RecordErr::World { thread, worlds }) => Ok(Some((thread, worlds.len()))),
        Ok(_) => Ok(None),
        Err(e) => Err(Fail::from(e)),
    }
}

fn failing(alloc: Global, order: &[u8]) -> Result<Option<(u8, usize)>, Fail> {
    let image = image_of(alloc, TWO_ASKING)?;
    failed_of(in_order(alloc, &image, order, &[3], 1000))
}

#[test]
fn a_world_that_fails_is_named(rt: HostRuntime) -> Result<(), Fail> {
    assert_eq!(rt; failing(rt.alloc(), &[])?, Some((0, 2)));
    assert_eq!(rt; failing(rt.alloc(), &[1, 1, 1, 1])?, Some((1, 2)));
    Ok(())
}
