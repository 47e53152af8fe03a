//! What is written of logs, output, memory, objects and next steps.

use crate::sessions::{Said, are_answered};
use crate::streams::{ENDLESS, Page};
use ir_debug::{DeviceErr, Sink};
use ir_log::Event;
use ir_runs::EnvKind;
use ir_tests::guests::{HELD_OUTSIDE, PRINT};
use ir_tests::traces::EventRow::Write;
use ir_tests::traces::{Ran, TraceRow};
use ir_text::write_log;
use std::alloc::{AllocError, Global};
use std::test::Fail;

const READ: Event = Event::Read {
    object: 3,
    version: 7,
};

// Events so far of four, and what is written of them.
const LOGS: [(&[Event], &[u8]); 2] = [
    (&[], b"log 0 of 4\n"),
    (
        &[
            Event::Answer(EnvKind::Clock, 70),
            READ,
            Event::Write {
                object: 15,
                version: 4_294_967_295,
                readers: 2,
            },
        ],
        b"log 3 of 4\n0 clock 70\n1 read 3 version 7\n2 write 15 version 4294967295 readers 2\n",
    ),
];

// What is written of a log; nothing where it couldn't be.
fn written(alloc: Global, events: &[Event], all: usize) -> Option<Vec<u8>> {
    let mut page = Page::new(alloc, false, ENDLESS);
    match write_log(events, all, &mut page) {
        Ok(()) => Some(page.bytes),
        Err(DeviceErr) => None,
    }
}

fn is_written(alloc: Global, events: &[Event], bytes: &[u8]) -> bool {
    match written(alloc, events, 4) {
        Some(found) => found.as_slice() == bytes,
        None => false,
    }
}

#[test]
fn a_log_has_a_line_for_each_event_so_far(rt: HostRuntime) {
    for &(events, bytes) in &LOGS {
        assert!(rt; is_written(rt.alloc(), events, bytes));
    }
}

// A hundred events.
fn long_log(alloc: Global) -> Result<Vec<Event>, AllocError> {
    let mut events = Vec::new(alloc);
    for _ in 0..100 {
        events.push(READ)?;
    }
    Ok(events)
}

// Whether a device that takes `room` bytes gets these and fails then.
fn is_cut_off(alloc: Global, events: &[Event], all: &[u8], room: usize) -> bool {
    let mut page = Page::new(alloc, true, room as u64);
    let is_refused = write_log(events, 100, &mut page) == Err(DeviceErr);
    is_refused && page.failed() && page.bytes.as_slice() == &all[..room.min(all.len())]
}

const LAST_LINES: &[u8] = b"97 read 3 version 7\n98 read 3 version 7\n99 read 3 version 7\n";

#[test]
fn a_long_log_is_written_whole(rt: HostRuntime) -> Result<(), Fail> {
    let events = long_log(rt.alloc())?;
    let Some(all) = written(rt.alloc(), events.as_slice(), 100) else {
        panic!(rt; "not written");
    };
    assert_eq!(rt; all.len(), 2005);
    assert_eq!(rt; &all[1945..], LAST_LINES);
    for room in [0, 14, 1000, 2004] {
        assert!(rt; is_cut_off(rt.alloc(), events.as_slice(), all.as_slice(), room));
    }
    Ok(())
}

// How often a thread prints `H`, its run, and what is shown at its end.
type Printed = (&'static str, &'static [Ran], &'static str);

const PRINTED: [Printed; 4] = [
    (
        "addi t0, zero, 0",
        &[Ran(5, 2, 0, &[])],
        "ready\nat 5\nout 0\n",
    ),
    (
        "addi t0, zero, 1",
        &[Ran(9, 2, 0, &[])],
        "ready\nat 9\nout 1\n48\n",
    ),
    (
        "addi t0, zero, 32",
        &[Ran(133, 2, 0, &[])],
        "ready\nat 133\nout 32\n\
4848484848484848484848484848484848484848484848484848484848484848\n",
    ),
    (
        "addi t0, zero, 33",
        &[Ran(137, 2, 0, &[])],
        "ready\nat 137\nout 33\n\
4848484848484848484848484848484848484848484848484848484848484848\n48\n",
    ),
];

#[test]
fn output_stands_in_lines_of_32_bytes(rt: HostRuntime) -> Result<(), Fail> {
    for &(count, threads, answers) in &PRINTED {
        let trace = TraceRow {
            objects: 0,
            budget: 1000,
            threads,
        };
        are_answered(&rt, &[count, PRINT], trace, &[("end\nout 0\n", answers)])?;
    }
    Ok(())
}

// Of `HELD_OUTSIDE`.
const RELEASED: TraceRow = TraceRow {
    objects: 1,
    budget: 9,
    threads: &[Ran(4, 5, 0, &[Write(0, 0, 0)])],
};

const SHOWN: [Said; 3] = [
    // Memory is of the code or the thread.
    (
        "mem 0 0x10000 4\nmem 0 0x10003 3\nmem 0 0x10fff0 16\n",
        "ready\n00010000: 93088000\n00010003: 007300\n0010fff0: 00000000000000000000000000000000\n",
    ),
    // An object names who is inside.
    (
        "obj 0\nstep 0 2\nobj 0\n",
        "ready\nversion 0 left 0 readers - writer -\n\
words 00000000 00000001 00000002 00000003 00000004 00000005 00000006 ffffffff\nat 2\n\
version 0 left 0 readers - writer 0\n\
words 00000000 00000001 00000002 00000003 00000004 00000005 00000006 ffffffff\n",
    ),
    // The next step is at pc or a release.
    (
        "next 0\nstep 0 1\nnext 0\nstep 0 1\nnext 0\nstep 0 1\nnext 0\nstep 0 1\nnext 0\n",
        "ready\nnext 00010000 addi a7, zero, 8\nat 1\nnext 00010004 ecall\nat 2\n\
next 00010008 none\nat 3\nnext give back 0\nat 4 end\nnext done\n",
    ),
];

#[test]
fn memory_objects_and_steps_are_shown(rt: HostRuntime) -> Result<(), Fail> {
    are_answered(&rt, HELD_OUTSIDE, RELEASED, &SHOWN)
}
