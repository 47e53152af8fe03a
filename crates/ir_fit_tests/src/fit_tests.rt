//! Guests of a few instructions, run along traces that are theirs, and along others.

use crate::guests::{
    ECALL, ENTER_READ, ENTER_WRITE, EXIT, FIRST_OBJECT, LEAVE, PRINT_BYTE, SECOND_OBJECT, guest,
};
use ir_fit::{Cause, FitErr, Fitted, HeaderCause, Leave, Verdict, fit};
use ir_image::Image;
use ir_object::OpenGate;
use ir_runs::{Access, ThreadVerdict};
use ir_trace::read_trace;
use std::alloc::Global;
use std::test::Fail;

// What `fit` answers.
#[derive(Clone, Copy, Debug, PartialEq)]
pub enum Judged {
    Fits,
    Header(HeaderCause),
    Breaks(u8, u32, Cause),
    // What is said of the first two threads.
    Threads(Option<ThreadVerdict>, Option<ThreadVerdict>),
    NoMem,
}

// What a verdict says.
fn said(verdict: &Verdict) -> Judged {
    match verdict {
        Verdict::Header(cause) => Judged::Header(*cause),
        Verdict::Incoherent {
            thread,
            event,
            cause,
        } => Judged::Breaks(*thread, *event, *cause),
        Verdict::Threads(each) => Judged::Threads(each.get(0).copied(), each.get(1).copied()),
    }
}

// What `fit` answers of the guest and the trace of these bytes.
pub fn answer_of(alloc: Global, image: Image, bytes: &[u8]) -> Result<Judged, Fail> {
    let trace = read_trace(alloc, bytes)?;
    let answer = fit(alloc, image, trace, &OpenGate);
    Ok(match &answer {
        Ok(_) => Judged::Fits,
        Err(FitErr::NoMem) => Judged::NoMem,
        Err(FitErr::Refused(verdict)) => said(verdict),
    })
}

// That the only thread disagrees.
const AT_STEP_2: Judged = Judged::Threads(
    Some(ThreadVerdict::Disagrees { event: 0, step: 2 }),
    None,
);

const AT_STEP_5: Judged = Judged::Threads(
    Some(ThreadVerdict::Disagrees { event: 0, step: 5 }),
    None,
);

const AT_STEP_10: Judged = Judged::Threads(
    Some(ThreadVerdict::Disagrees { event: 2, step: 10 }),
    None,
);

// That a thread starves at its first event.
const STARVES: Option<ThreadVerdict> = Some(ThreadVerdict::Starves { event: 0 });

// Prints a byte and ends with its double as the code.
const DOUBLE: [u32; 6] = [
    0x0480_0513, // addi a0, zero, 72
    PRINT_BYTE,
    ECALL,
    0x00a5_0533, // add a0, a0, a0
    EXIT,
    ECALL,
];

// The trace of one thread with these steps and this code, where the budget is so.
fn double_trace(budget: u8, steps: [u8; 8], code: u8) -> [u8; 33] {
    let [a, b, c, d, e, f, g, h] = steps;
    [
        0x49, 0x52, 0x54, 0x31, 1, 0, 0, 0, budget, 0, 0, 0, 0, 0, 0, 0, // header
        a, b, c, d, e, f, g, h, 1, code, 0, 0, 0, 0, 0, 0, 0, // the thread
    ]
}

// Says what is said of the thread that prints, along such a trace.
fn double(alloc: Global, budget: u8, steps: [u8; 8], code: u8) -> Result<Judged, Fail> {
    let image = guest(alloc, &[0], 0, &DOUBLE)?;
    answer_of(alloc, image, &double_trace(budget, steps, code))
}

// The budget, the steps, the code, and what is answered: the first trace is the thread's own.
const DOUBLES: [(u8, [u8; 8], u8, Judged); 6] = [
    (100, [6, 0, 0, 0, 0, 0, 0, 0], 144, Judged::Fits),
    (100, [7, 0, 0, 0, 0, 0, 0, 0], 144, AT_STEP_5),
    (100, [5, 0, 0, 0, 0, 0, 0, 0], 144, AT_STEP_5),
    (100, [255; 8], 144, AT_STEP_5),
    (100, [6, 0, 0, 0, 0, 0, 0, 0], 0, AT_STEP_5),
    (2, [6, 0, 0, 0, 0, 0, 0, 0], 144, AT_STEP_2),
];

#[test]
fn steps_code_and_budget_are_the_trace_s(rt: HostRuntime) -> Result<(), Fail> {
    for &(budget, steps, code, wanted) in &DOUBLES {
        assert_eq!(rt; double(rt.alloc(), budget, steps, code)?, wanted);
    }
    Ok(())
}

// Enters object 0 for reading, and then for writing.
pub const READ_AND_WRITE: [u32; 11] = [
    FIRST_OBJECT,
    ENTER_READ,
    ECALL,
    LEAVE,
    ECALL,
    ENTER_WRITE,
    ECALL,
    LEAVE,
    ECALL,
    EXIT,
    ECALL,
];

// Gives what is answered of the thread that reads and writes, along a trace with `count` events.
fn read_and_write(alloc: Global, count: u8, events: &[u8]) -> Result<Judged, Fail> {
    let image = guest(alloc, &[0], 1, &READ_AND_WRITE)?;
    let mut bytes = Vec::new(alloc);
    bytes.extend_from_slice(&[0x49, 0x52, 0x54, 0x31, 1, 1, 0, 0, 100, 0, 0, 0, 0, 0, 0, 0])?;
    bytes.extend_from_slice(&[11, 0, 0, 0, 0, 0, 0, 0, 1, 0, 0, 0, 0, count, 0, 0, 0])?;
    bytes.extend_from_slice(events)?;
    answer_of(alloc, image, &bytes)
}

// How many events there are, their bytes, and what is answered.
const ENTRIES: [(u8, &[u8], Judged); 5] = [
    // The own ones; then the writer has no readers.
    (
        2,
        &[4, 0, 0, 0, 0, 0, 5, 0, 0, 0, 0, 0, 1, 0, 0, 0],
        Judged::Fits,
    ),
    (
        2,
        &[4, 0, 0, 0, 0, 0, 5, 0, 0, 0, 0, 0, 0, 0, 0, 0],
        Judged::Breaks(0, 1, Cause::Readers),
    ),
    // A version that never comes.
    (
        2,
        &[4, 0, 1, 0, 0, 0, 5, 0, 0, 0, 0, 0, 0, 0, 0, 0],
        Judged::Threads(STARVES, None),
    ),
    // Another entry.
    (1, &[5, 0, 0, 0, 0, 0, 0, 0, 0, 0], AT_STEP_2),
    // An event that isn't used up at the end.
    (
        3,
        &[
            4, 0, 0, 0, 0, 0, 5, 0, 0, 0, 0, 0, 1, 0, 0, 0, 1, 5, 0, 0, 0,
        ],
        AT_STEP_10,
    ),
];

#[test]
fn entries_are_the_trace_s(rt: HostRuntime) -> Result<(), Fail> {
    for &(count, events, wanted) in &ENTRIES {
        assert_eq!(rt; read_and_write(rt.alloc(), count, events)?, wanted);
    }
    Ok(())
}

// The positions of the first thread's events, and its leaves.
fn first_places(fitted: &Fitted) -> ([u64; 2], [Option<Leave>; 3]) {
    if fitted.image().entries().is_empty() {
        return ([0, 0], [None, None, None]);
    }
    let entries = match fitted.entries(0) {
        [first, second] => [*first, *second],
        _ => [0, 0],
    };
    let leaves = fitted.leaves(0);
    (
        entries,
        [
            leaves.first().copied(),
            leaves.get(1).copied(),
            leaves.get(2).copied(),
        ],
    )
}

// The same of the thread that reads and writes, where it follows its own trace.
fn read_and_write_places(alloc: Global) -> Result<([u64; 2], [Option<Leave>; 3]), Fail> {
    let image = guest(alloc, &[0], 1, &READ_AND_WRITE)?;
    let bytes = [
        0x49, 0x52, 0x54, 0x31, 1, 1, 0, 0, 100, 0, 0, 0, 0, 0, 0, 0, // header
        11, 0, 0, 0, 0, 0, 0, 0, 1, 0, 0, 0, 0, 2, 0, 0, 0, // the thread
        4, 0, 0, 0, 0, 0, 5, 0, 0, 0, 0, 0, 1, 0, 0, 0, // its entries
    ];
    let answer = fit(alloc, image, read_trace(alloc, &bytes)?, &OpenGate);
    Ok(match &answer {
        Ok(fitted) => first_places(fitted),
        Err(_) => ([0, 0], [None, None, None]),
    })
}

#[test]
fn events_and_leaves_have_their_positions(rt: HostRuntime) -> Result<(), Fail> {
    let (entries, leaves) = read_and_write_places(rt.alloc())?;
    assert_eq!(rt; entries, [2, 6]);
    let read = Leave {
        position: 4,
        object: 0,
        access: Access::Reading,
        version: 0,
    };
    let write = Leave {
        position: 8,
        object: 0,
        access: Access::Writing,
        version: 0,
    };
    assert_eq!(rt; leaves, [Some(read), Some(write), None]);
    Ok(())
}

// One thread enters and leaves object 0 and then 1, the other 1 and then 0.
pub const CROSSED: [u32; 24] = [
    FIRST_OBJECT,
    ENTER_WRITE,
    ECALL,
    LEAVE,
    ECALL,
    SECOND_OBJECT,
    ENTER_WRITE,
    ECALL,
    LEAVE,
    ECALL,
    EXIT,
    ECALL,
    SECOND_OBJECT,
    ENTER_WRITE,
    ECALL,
    LEAVE,
    ECALL,
    FIRST_OBJECT,
    ENTER_WRITE,
    ECALL,
    LEAVE,
    ECALL,
    EXIT,
    ECALL,
];

// Their trace, by the versions that the first and the second thread enter first and then.
pub fn crossed_trace(first: [u8; 2], second: [u8; 2]) -> [u8; 90] {
    let [a, b] = first;
    let [c, d] = second;
    [
        0x49, 0x52, 0x54, 0x31, 2, 2, 0, 0, 100, 0, 0, 0, 0, 0, 0, 0, // header
        12, 0, 0, 0, 0, 0, 0, 0, 1, 1, 0, 0, 0, 2, 0, 0, 0, // thread 0
        5, 0, a, 0, 0, 0, 0, 0, 0, 0, 5, 1, b, 0, 0, 0, 0, 0, 0, 0, // its entries
        12, 0, 0, 0, 0, 0, 0, 0, 1, 0, 0, 0, 0, 2, 0, 0, 0, // thread 1
        5, 1, c, 0, 0, 0, 0, 0, 0, 0, 5, 0, d, 0, 0, 0, 0, 0, 0, 0, // its entries
    ]
}

// What is answered of the two threads along such a trace.
fn crossed(alloc: Global, first: [u8; 2], second: [u8; 2]) -> Result<Judged, Fail> {
    let image = guest(alloc, &[0, 48], 2, &CROSSED)?;
    answer_of(alloc, image, &crossed_trace(first, second))
}

// The versions that the first and the second thread enter, and what is answered.
const VERSIONS: [([u8; 2], [u8; 2], Judged); 5] = [
    // Each waits for the other.
    ([1, 0], [1, 0], Judged::Threads(STARVES, STARVES)),
    // A thread that waits continues after the leave.
    ([1, 1], [0, 0], Judged::Fits),
    ([0, 1], [0, 1], Judged::Fits),
    // An incoherent trace is named before any step.
    ([0, 0], [0, 0], Judged::Breaks(0, 0, Cause::Twice)),
    ([2, 1], [0, 0], Judged::Breaks(0, 0, Cause::Unmade)),
];

#[test]
fn threads_wait_for_their_versions(rt: HostRuntime) -> Result<(), Fail> {
    for &(first, second, wanted) in &VERSIONS {
        assert_eq!(rt; crossed(rt.alloc(), first, second)?, wanted);
    }
    Ok(())
}

// Where the threads of another guest start, how many objects it has, and what is answered.
const HEADERS: [(&[u8], u8, HeaderCause); 2] = [
    (&[0], 2, HeaderCause::Threads),
    (&[0, 48], 3, HeaderCause::Objects),
];

#[test]
fn the_header_comes_first(rt: HostRuntime) -> Result<(), Fail> {
    for &(starts, objects, cause) in &HEADERS {
        let image = guest(rt.alloc(), starts, objects, &CROSSED)?;
        let said = answer_of(rt.alloc(), image, &crossed_trace([0, 0], [0, 0]))?;
        assert_eq!(rt; said, Judged::Header(cause));
    }
    Ok(())
}
