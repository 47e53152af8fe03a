//! Sessions whose reader or writer fails, and a session whose two readers wait for each other.

use crate::sessions::{Failing, Files, NEVER, answer_of, answered_until, files_of};
use crate::streams::ENDLESS;
use ir_debug::{Ended, SessionErr};
use ir_object::OpenGate;
use ir_tests::guests::{DOUBLED, Source, TWO_COUNTERS, TWO_READERS};
use ir_tests::meeting::Meeting;
use ir_tests::traces::{BOTH_READ, ENDED_BY_144, SECOND_FIRST, TraceRow};
use std::test::Fail;
use std::thread::Threads;
use std::time::Clock;

const NO_EVENTS: &str = "step 0 3\nregs 0\nstep 0 9\n";

const TO_A_WRITER: &str = "step 0 3\nobj 0\nlog 0\nnext 0\nback 1 1\n";

const TO_THE_END: &str = "step 0 4294967295\nend\nobj 0\nnext 0\n";

const TO_A_HIT: &str = "break 0 0x1001c\ncont 0\ncont 0\nrcont 0\n";

// A guest, its trace, and lines.
const SESSIONS: [(Source, TraceRow, &str); 4] = [
    (DOUBLED, ENDED_BY_144, NO_EVENTS),
    (TWO_COUNTERS, SECOND_FIRST, TO_A_WRITER),
    (TWO_COUNTERS, SECOND_FIRST, TO_THE_END),
    (TWO_COUNTERS, SECOND_FIRST, TO_A_HIT),
];

// The lines among these bytes that are whole.
fn whole_lines(bytes: &[u8]) -> &[u8] {
    match bytes.iter().rposition(|byte| *byte == b'\n') {
        Some(last) => &bytes[..last + 1],
        None => b"",
    }
}

// Whether a session whose reads fail after `calls` of them answers the lines that it has read whole, after the opening line.
fn is_read_failed<R: AllocGlobal + Threads + Clock + Sync>(
    rt: &R,
    files: &Files,
    lines: &[u8],
    calls: usize,
) -> bool {
    let (image, trace) = (files.image.as_slice(), files.trace.as_slice());
    let failing = Failing {
        reads: calls as u64,
        ..NEVER
    };
    let (written, ended) = answered_until(rt, image, trace, lines, failing, &OpenGate);
    let (whole, _rest) = lines.split_at(calls.min(lines.len()));
    let (expected, _ended) = answer_of(rt, files, whole_lines(whole));
    ended == Err(SessionErr::Read) && written.bytes.as_slice() == expected.bytes.as_slice()
}

// Whether that holds of each read.
fn each_read_fails<R: AllocGlobal + Threads + Clock + Sync>(
    rt: &R,
    files: &Files,
    lines: &[u8],
) -> bool {
    for calls in 0..lines.len() {
        if !is_read_failed(rt, files, lines, calls) {
            return false;
        }
    }
    is_read_failed(rt, files, lines, lines.len())
}

#[test]
fn each_read_fails_in_its_turn(rt: HostRuntime) -> Result<(), Fail> {
    for &(guest, trace, lines) in &SESSIONS {
        let files = files_of(rt.alloc(), guest, trace)?;
        assert!(rt; each_read_fails(&rt, &files, lines.as_bytes()), "{lines}");
    }
    Ok(())
}

// Whether a session whose writes fail after `calls` of them has written a prefix of what is answered else.
fn is_write_failed<R: AllocGlobal + Threads + Clock + Sync>(
    rt: &R,
    files: &Files,
    lines: &[u8],
    all: &[u8],
    calls: usize,
) -> bool {
    let (image, trace) = (files.image.as_slice(), files.trace.as_slice());
    let failing = Failing {
        writes: Some(calls as u64),
        ..NEVER
    };
    let (written, ended) = answered_until(rt, image, trace, lines, failing, &OpenGate);
    let (prefix, _rest) = all.split_at(calls.min(all.len()));
    ended == Err(SessionErr::Write) && written.bytes.as_slice() == prefix
}

// Whether that holds of each write.
fn each_write_fails<R: AllocGlobal + Threads + Clock + Sync>(
    rt: &R,
    files: &Files,
    lines: &[u8],
) -> bool {
    let (all, _ended) = answer_of(rt, files, lines);
    for calls in 0..all.bytes.len() {
        if !is_write_failed(rt, files, lines, all.bytes.as_slice(), calls) {
            return false;
        }
    }
    true
}

#[test]
fn each_write_fails_in_its_turn(rt: HostRuntime) -> Result<(), Fail> {
    for &(guest, trace, lines) in &SESSIONS {
        let files = files_of(rt.alloc(), guest, trace)?;
        assert!(rt; each_write_fails(&rt, &files, lines.as_bytes()), "{lines}");
    }
    Ok(())
}

// Whether a writer that takes a byte a call takes the same bytes, and the session ends the same.
fn is_same_by_bytes<R: AllocGlobal + Threads + Clock + Sync>(
    rt: &R,
    files: &Files,
    lines: &[u8],
) -> bool {
    let (image, trace) = (files.image.as_slice(), files.trace.as_slice());
    let (all, ended) = answer_of(rt, files, lines);
    let by_each = Failing {
        writes: Some(ENDLESS),
        ..NEVER
    };
    let (written, by_bytes) = answered_until(rt, image, trace, lines, by_each, &OpenGate);
    written.bytes.as_slice() == all.bytes.as_slice() && by_bytes == ended
}

#[test]
fn a_byte_a_call_makes_no_difference(rt: HostRuntime) -> Result<(), Fail> {
    for &(guest, trace, lines) in &SESSIONS {
        let files = files_of(rt.alloc(), guest, trace)?;
        assert!(rt; is_same_by_bytes(&rt, &files, lines.as_bytes()), "{lines}");
    }
    Ok(())
}

const BOTH_INSIDE: &[u8] = b"ready\nat 7 7\nversion 0 left 2 readers - writer -\n\
words 00000000 00000000 00000000 00000000 00000000 00000000 00000000 00000000\n";

#[test]
fn two_readers_replay(rt: HostRuntime) -> Result<(), Fail> {
    let files = files_of(rt.alloc(), TWO_READERS, BOTH_READ)?;
    let gate = Meeting::new();
    let (image, trace) = (files.image.as_slice(), files.trace.as_slice());
    let lines = b"end\nobj 0\n";
    let (written, ended) = answered_until(&rt, image, trace, lines, NEVER, &gate);
    assert_eq!(rt; ended, Ok(Ended::InputEnd));
    assert_eq!(rt; written.bytes.as_slice(), BOTH_INSIDE);
    assert!(rt; !gate.missed());
    Ok(())
}
