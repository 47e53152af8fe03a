//! Stale writes of traces made by hand: a lost update, an own write between, refusals, a writer that fails at each of its calls.

use crate::page::{ENDLESS, Page, empty_page};
use crate::traces::LOST;
use ir_past::{StaleQuestion, ask_trace};
use std::test::Fail;

const LINES: &[u8] = b"stale 1 of 2
thread 0 event 1 write 0 version 1 read event 0 version 0 overwritten by thread 1 event 1
";

// Thread 0 reads version 0 and writes over it; thread 1 writes over that, and thread 0 over that again.
const OWN: [u8; 86] = [
    0x49, 0x52, 0x54, 0x31, 2, 1, 0, 0, 0xe8, 3, 0, 0, 0, 0, 0, 0, // header
    20, 0, 0, 0, 0, 0, 0, 0, 1, 0, 0, 0, 0, 3, 0, 0, 0, // thread 0
    4, 0, 0, 0, 0, 0, // read 0 version 0
    5, 0, 0, 0, 0, 0, 1, 0, 0, 0, // write 0 version 0 readers 1
    5, 0, 2, 0, 0, 0, 0, 0, 0, 0, // write 0 version 2 readers 0
    20, 0, 0, 0, 0, 0, 0, 0, 1, 0, 0, 0, 0, 1, 0, 0, 0, // thread 1
    5, 0, 1, 0, 0, 0, 0, 0, 0, 0, // write 0 version 1 readers 0
];

// The status, and what was written and reported, by writers that take `most` bytes a call, of which that of the lines fails
// after `calls` calls.
fn stale(rt: &HostRuntime, trace: &[u8], most: usize, calls: u64) -> (u8, Page, Page) {
    let mut out = empty_page(rt, most, calls);
    let mut faults = empty_page(rt, most, ENDLESS);
    let status = ask_trace(rt.alloc(), trace, &StaleQuestion, &mut out, &mut faults);
    (status.number(), out, faults)
}

#[test]
fn a_lost_update_is_listed(rt: HostRuntime) {
    for most in [1, 7, 1000] {
        let (status, out, faults) = stale(&rt, &LOST, most, ENDLESS);
        assert_eq!(rt; status, 0);
        assert_eq!(rt; out.bytes.as_slice(), LINES);
        assert!(rt; faults.bytes.is_empty());
    }
}

#[test]
fn an_own_write_between_is_not_listed(rt: HostRuntime) {
    let (status, out, faults) = stale(&rt, &OWN, 1000, ENDLESS);
    assert_eq!(rt; status, 0);
    assert_eq!(rt; out.bytes.as_slice(), b"stale 0 of 3\n".as_slice());
    assert!(rt; faults.bytes.is_empty());
}

#[test]
fn an_incoherent_trace_is_reported(rt: HostRuntime) {
    let mut trace = LOST;
    trace[78] = 1;
    let (status, out, faults) = stale(&rt, &trace, 1000, ENDLESS);
    assert_eq!(rt; status, 4);
    assert_eq!(rt;
        out.bytes.as_slice(),
        b"incoherent thread 1 event 1 cause 3\n".as_slice()
    );
    assert!(rt; faults.bytes.is_empty());
}

#[test]
fn bytes_that_are_no_trace_are_refused(rt: HostRuntime) {
    for length in 0..82 {
        let (status, out, _) = stale(&rt, &LOST[..length], 5, ENDLESS);
        assert_eq!(rt;
            (status, out.bytes.as_slice()),
            (3, b"trace refused 1\n".as_slice())
        );
    }
}

#[test]
fn a_failing_writer_is_reported(rt: HostRuntime) -> Result<(), Fail> {
    for calls in 0..LINES.len() as u64 {
        let (status, out, faults) = stale(&rt, &LOST, 1, calls);
        assert_eq!(rt; status, 1);
        assert_eq!(rt; out.bytes.len() as u64, calls);
        assert!(rt; LINES.starts_with(out.bytes.as_slice()));
        assert_eq!(rt;
            faults.bytes.as_slice(),
            b"ir: standard output can't be written\n".as_slice()
        );
    }
    Ok(())
}
