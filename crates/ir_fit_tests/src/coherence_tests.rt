//! Events that can be in one trace together, and such as can't.

use self::Logged::{Clock, Read, Write};
use crate::event_bytes::put;
use ir_fit::{Cause, FitErr, HeaderCause, Verdict, coherent};
use ir_log::Event;
use ir_runs::EnvKind;
use ir_trace::{Trace, read_trace};
use std::alloc::{AllocError, Global};
use std::test::Fail;

// What comes before the threads of a trace of sixteen objects, after their number.
const BUDGET: [u8; 11] = [16, 0, 0, 0xe8, 0x03, 0, 0, 0, 0, 0, 0];

// A thread that ended with code 0 after eleven steps, beside its events.
const STEPS_AND_END: [u8; 13] = [0x0b, 0, 0, 0, 0, 0, 0, 0, 1, 0, 0, 0, 0];

// An event of a log, in short: an answer of the clock, or an entry of an object at a version, for writing with readers.
#[derive(Clone, Copy)]
enum Logged {
    Clock,
    Read(u8, u32),
    Write(u8, u32, u32),
}

impl Logged {
    fn event(self) -> Event {
        match self {
            Clock => Event::Answer(EnvKind::Clock, 5),
            Read(object, version) => Event::Read { object, version },
            Write(object, version, readers) => Event::Write {
                object,
                version,
                readers,
            },
        }
    }
}

// The bytes of a trace of threads with these logs.
fn encoded(alloc: Global, logs: &[&[Logged]]) -> Result<Vec<u8>, AllocError> {
    let mut bytes = Vec::new(alloc);
    bytes.extend_from_slice(b"IRT1")?;
    bytes.push((logs.len() % 256) as u8)?;
    bytes.extend_from_slice(&BUDGET)?;
    for log in logs {
        bytes.extend_from_slice(&STEPS_AND_END)?;
        bytes.extend_from_slice(&[(log.len() % 256) as u8, 0, 0, 0])?;
        for event in *log {
            put(&mut bytes, event.event())?;
        }
    }
    Ok(bytes)
}

// The first event that breaks coherence, and its first cause; none where the trace is coherent.
fn broken(alloc: Global, logs: &[&[Logged]]) -> Result<Option<(u8, u32, Cause)>, Fail> {
    let trace: Trace = read_trace(alloc, &encoded(alloc, logs)?)?;
    match coherent(alloc, &trace) {
        Ok(()) => Ok(None),
        Err(
            FitErr::Refused(
                Verdict::Incoherent {
                    thread,
                    event,
                    cause,
                },
            ),
        ) => Ok(Some((thread, event, cause))),
        Err(_) => Ok(Some((255, 0, Cause::Unmade))),
    }
}

// The logs of a trace, and what is found.
type Row = (&'static [&'static [Logged]], Option<(u8, u32, Cause)>);

const OF_ONE_VERSION: [Row; 8] = [
    // Two writers at one version.
    (
        &[&[Write(0, 0, 0)], &[Write(0, 0, 0)]],
        Some((0, 0, Cause::Twice)),
    ),
    // Readers are counted in the whole trace.
    (
        &[&[Read(0, 0)], &[Read(0, 0)], &[Write(0, 0, 1)]],
        Some((2, 0, Cause::Readers)),
    ),
    (&[&[Write(0, 0, 1)], &[Read(0, 0)]], None),
    // A reader left out.
    (
        &[&[Read(0, 0), Write(0, 0, 0)]],
        Some((0, 1, Cause::Readers)),
    ),
    // A version that no thread made.
    (
        &[&[Write(0, 2, 0)], &[Write(0, 0, 0)]],
        Some((0, 0, Cause::Unmade)),
    ),
    (&[&[Read(0, 0xffff_ffff)]], Some((0, 0, Cause::Unmade))),
    // The first cause is named.
    (
        &[&[Write(0, 3, 7)], &[Write(0, 3, 7)]],
        Some((0, 0, Cause::Unmade)),
    ),
    (
        &[&[Write(0, 0, 7)], &[Write(0, 0, 7)]],
        Some((0, 0, Cause::Twice)),
    ),
];

const OF_MORE: [Row; 6] = [
    // The first event is named, by thread and then by place.
    (
        &[&[Clock, Read(0, 9), Read(0, 8)], &[Read(0, 7)]],
        Some((0, 1, Cause::Unmade)),
    ),
    (
        &[&[Clock], &[Clock, Read(0, 9), Read(0, 8)]],
        Some((1, 1, Cause::Unmade)),
    ),
    // The first thread's entry was made by the second's, which no thread made.
    (
        &[&[Read(0, 0xffff_ffff)], &[Write(0, 0xffff_fffe, 0)]],
        Some((1, 0, Cause::Unmade)),
    ),
    // Objects are distinguished.
    (
        &[&[Write(1, 0, 0)], &[Read(0, 1)]],
        Some((1, 0, Cause::Unmade)),
    ),
    // Coherent ones.
    (&[&[]], None),
    (
        &[
            &[Write(0, 1, 1), Clock, Write(15, 0, 0)],
            &[Write(0, 0, 0), Read(0, 1), Read(0, 2), Read(15, 1)],
        ],
        None,
    ),
];

#[test]
fn the_first_break_is_named(rt: HostRuntime) -> Result<(), Fail> {
    for table in [OF_ONE_VERSION.as_slice(), OF_MORE.as_slice()] {
        for (logs, wanted) in table {
            assert_eq!(rt; broken(rt.alloc(), logs)?, *wanted);
        }
    }
    Ok(())
}

#[test]
fn causes_have_numbers(rt: HostRuntime) -> Result<(), Fail> {
    assert_eq!(rt; HeaderCause::Threads.number(), 1);
    assert_eq!(rt; HeaderCause::Objects.number(), 2);
    assert_eq!(rt; Cause::Unmade.number(), 1);
    assert_eq!(rt; Cause::Twice.number(), 2);
    assert_eq!(rt; Cause::Readers.number(), 3);
    Ok(())
}
