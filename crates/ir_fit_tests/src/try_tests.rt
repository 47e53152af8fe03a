//! Tries to enter, in the two profiles, and their traces.

use crate::fit_tests::{Judged, answer_of};
use crate::guests::{ECALL, ENTER_WRITE, EXIT, FIRST_OBJECT, TRY_WRITE, guest, guest_for};
use ir_fit::Cause;
use ir_flat::Flat;
use ir_runs::ThreadVerdict;
use ir_thread::Profile;
use ir_trace::{TraceErr, read_trace, write_trace};
use std::alloc::Global;
use std::test::Fail;

// Tries to enter object 0, and ends with the answer as the code.
const TRY: [u32; 5] = [FIRST_OBJECT, TRY_WRITE, ECALL, EXIT, ECALL];

// The end of the first thread, its code, and its steps and events.
type Ended = Option<(u8, u32, u64, u32)>;

fn ended(flat: &Flat) -> Ended {
    let thread = flat.threads().first()?;
    let end = thread.ended()?;
    Some((end.number(), end.code(), thread.steps(), thread.events()))
}

// Thread 0 alone: which calls there are, the result of its try, and how it ends.
const ALONE: [(Profile, u32, Ended); 4] = [
    (Profile::Two, 1, Some((1, 1, 5, 1))),
    (Profile::Two, 0, Some((1, 0, 5, 1))),
    (Profile::Two, 2, None),
    (Profile::One, 1, Some((8, 0, 3, 0))),
];

// How the thread ends, if five steps are tried.
fn alone(alloc: Global, profile: Profile, answer: u32) -> Result<Ended, Fail> {
    let image = guest_for(alloc, profile, &[0], 1, &TRY)?;
    let mut flat = Flat::start(alloc, &image, 1000, profile)?;
    for _ in 0..5 {
        if !flat.threads().is_empty() {
            let _ = flat.step(0, answer);
        }
    }
    Ok(ended(&flat))
}

#[test]
fn a_try_has_two_results(rt: HostRuntime) -> Result<(), Fail> {
    for (profile, result, end) in &ALONE {
        assert_eq!(rt; alone(rt.alloc(), *profile, *result)?, *end);
    }
    Ok(())
}

// Thread 0 is inside the object when thread 1 tries: thread 1's result, and whether it is one.
const BESIDE: [(u32, bool); 3] = [(0, true), (1, false), (2, false)];

#[test]
fn a_try_enters_where_nobody_is_inside(rt: HostRuntime) -> Result<(), Fail> {
    let code = [
        FIRST_OBJECT,
        ENTER_WRITE,
        ECALL,
        FIRST_OBJECT,
        TRY_WRITE,
        ECALL,
    ];
    let image = guest_for(rt.alloc(), Profile::Two, &[0, 12], 1, &code)?;
    let mut flat = Flat::start(rt.alloc(), &image, 1000, Profile::Two)?;
    for thread in [0, 0, 0, 1, 1] {
        if thread < flat.threads().len() {
            assert!(rt; flat.step(thread, 0).is_ok());
        }
    }
    for &(result, is_one) in &BESIDE {
        let mut copy = flat.copy()?;
        if copy.threads().len() > 1 {
            assert_eq!(rt; copy.step(1, result).is_ok(), is_one);
        }
    }
    Ok(())
}

// The header of a trace of one thread and object, with the budget 1000.
const HEADER: [u8; 16] = [
    0x49, 0x52, 0x54, 0x32, 1, 1, 0, 0, 0xe8, 3, 0, 0, 0, 0, 0, 0,
];

// A thread that got in, and gave the object back.
const ENTERED: [u8; 27] = [
    6, 0, 0, 0, 0, 0, 0, 0, 1, 1, 0, 0, 0, 1, 0, 0, 0, 5, 0, 0, 0, 0, 0, 0, 0, 0, 0,
];

// A thread that was refused.
const REFUSED: [u8; 19] = [5, 0, 0, 0, 0, 0, 0, 0, 1, 0, 0, 0, 0, 1, 0, 0, 0, 6, 0];

// The bytes of a trace of these threads, by the last byte of its magic.
fn trace_of(alloc: Global, last: u8, threads: &[&[u8]]) -> Result<Vec<u8>, Fail> {
    let mut bytes = Vec::from_slice(alloc, &HEADER)?;
    bytes[3] = last;
    bytes[4] = threads.len().min(8) as u8;
    for thread in threads {
        bytes.extend_from_slice(thread)?;
    }
    Ok(bytes)
}

#[test]
fn traces_with_tries_are_written_as_they_were_read(rt: HostRuntime) -> Result<(), Fail> {
    for (thread, length) in [(ENTERED.as_slice(), 43), (REFUSED.as_slice(), 35)] {
        let bytes = trace_of(rt.alloc(), 0x32, &[thread])?;
        assert_eq!(rt; bytes.len(), length);
        let trace = read_trace(rt.alloc(), &bytes)?;
        assert_eq!(rt; trace.profile(), Profile::Two);
        assert_eq!(rt; write_trace(rt.alloc(), &trace)?, bytes);
    }
    Ok(())
}

// The refusal of a trace of one thread.
fn refusal(alloc: Global, last: u8, thread: &[u8]) -> Result<Option<u8>, Fail> {
    let bytes = trace_of(alloc, last, &[thread])?;
    Ok(match read_trace(alloc, &bytes) {
        Ok(_) => None,
        Err(TraceErr::NoMem) => Some(0),
        Err(err) => err.number(),
    })
}

// A refused try of object 1, which there isn't; and an event of the tag 7.
const OF_NO_OBJECT: [u8; 19] = [5, 0, 0, 0, 0, 0, 0, 0, 1, 0, 0, 0, 0, 1, 0, 0, 0, 6, 1];

const NO_TAG: [u8; 19] = [5, 0, 0, 0, 0, 0, 0, 0, 1, 0, 0, 0, 0, 1, 0, 0, 0, 7, 0];

#[test]
fn refused_tries_stand_in_the_second_profile_alone(rt: HostRuntime) -> Result<(), Fail> {
    assert_eq!(rt; refusal(rt.alloc(), 0x31, &REFUSED)?, Some(4));
    assert_eq!(rt; refusal(rt.alloc(), 0x33, &REFUSED)?, Some(2));
    assert_eq!(rt; refusal(rt.alloc(), 0x32, &OF_NO_OBJECT)?, Some(3));
    assert_eq!(rt; refusal(rt.alloc(), 0x32, &NO_TAG)?, Some(4));
    Ok(())
}

// What is said of the trace of these threads, each of which tries once.
fn verdict_on(alloc: Global, last: u8, threads: &[&[u8]]) -> Result<Judged, Fail> {
    let image = guest(alloc, &[0, 0][..threads.len().min(2)], 1, &TRY)?;
    let bytes = trace_of(alloc, last, threads)?;
    answer_of(alloc, image, bytes.as_slice())
}

// A thread that got in once another had left.
const ENTERED_NEXT: [u8; 27] = [
    6, 0, 0, 0, 0, 0, 0, 0, 1, 1, 0, 0, 0, 1, 0, 0, 0, 5, 0, 1, 0, 0, 0, 0, 0, 0, 0,
];

// A thread that was refused, with the code of one that got in.
const REFUSED_WITH_1: [u8; 19] = [5, 0, 0, 0, 0, 0, 0, 0, 1, 1, 0, 0, 0, 1, 0, 0, 0, 6, 0];

const AT_ITS_END: Option<ThreadVerdict> = Some(ThreadVerdict::Disagrees { event: 1, step: 4 });

// The last byte of the magic, the threads, and what is said of them.
const SAID: [(u8, &[&[u8]], Judged); 7] = [
    (0x32, &[&ENTERED], Judged::Fits),
    (0x32, &[&REFUSED], Judged::Fits),
    (0x32, &[&ENTERED, &REFUSED], Judged::Fits),
    (0x32, &[&ENTERED_NEXT, &ENTERED], Judged::Fits),
    (
        0x32,
        &[&ENTERED, &ENTERED],
        Judged::Breaks(0, 0, Cause::Twice),
    ),
    (0x32, &[&REFUSED_WITH_1], Judged::Threads(AT_ITS_END, None)),
    (
        0x31,
        &[&ENTERED],
        Judged::Threads(Some(ThreadVerdict::Disagrees { event: 0, step: 2 }), None),
    ),
];

#[test]
fn traces_with_tries_fit_as_they_were_answered(rt: HostRuntime) -> Result<(), Fail> {
    for (last, threads, expected) in &SAID {
        assert_eq!(rt; verdict_on(rt.alloc(), *last, threads)?, *expected);
    }
    Ok(())
}
