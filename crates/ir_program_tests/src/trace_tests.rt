//! Traces in lines over fakes: all kinds of events, refusals, a writer that fails at each of its calls.

use crate::device_tests::{ENDLESS, Page, empty_page};
use ir_commands::trace_run;
use std::test::Fail;

// Two threads and two objects: the first logs an event of each kind, the second none.
const TRACE: [u8; 86] = [
    0x49, 0x52, 0x54, 0x31, 2, 2, 0, 0, 0, 0x10, 0xa5, 0xd4, 0xe8, 0, 0, 0, // header
    40, 0, 0, 0, 0, 0, 0, 0, 1, 255, 255, 255, 255, 6, 0, 0, 0, // thread 0
    1, 255, 255, 255, 255, // clock
    2, 7, 0, 0, 0, // random
    3, 65, 0, 0, 0, // input
    4, 1, 3, 0, 0, 0, // read
    5, 0, 2, 0, 0, 0, 5, 0, 0, 0, // write
    3, 255, 255, 255, 255, // the end of the input
    5, 0, 0, 0, 0, 0, 0, 0, 13, 0, 0, 0, 0, 0, 0, 0, 0, // thread 1
];

const LINES: &[u8] = b"threads 2 objects 2 budget 1000000000000 profile 1
thread 0 end 1 code 4294967295 steps 40 events 6
log 6 of 6
0 clock 4294967295
1 random 7
2 input 65
3 read 1 version 3
4 write 0 version 2 readers 5
5 input 4294967295
thread 1 end 13 code 0 steps 5 events 0
log 0 of 0
";

// The status, and what was written and reported, by writers that take `most` bytes a call, of which that of the lines fails
// after `calls` calls.
fn listed(rt: &HostRuntime, trace: &[u8], most: usize, calls: u64) -> (u8, Page, Page) {
    let mut out = empty_page(rt, most, calls);
    let mut faults = empty_page(rt, most, ENDLESS);
    let status = trace_run(rt.alloc(), trace, &mut out, &mut faults);
    (status.number(), out, faults)
}

#[test]
fn a_trace_is_listed(rt: HostRuntime) {
    for most in [1, 7, 1000] {
        let (status, out, faults) = listed(&rt, &TRACE, most, ENDLESS);
        assert_eq!(rt; status, 0);
        assert_eq!(rt; out.bytes.as_slice(), LINES);
        assert!(rt; faults.bytes.is_empty());
    }
}

// The byte that is put at a place of the trace, and the number of the fault.
const FAULTS: [(usize, u8, &[u8]); 6] = [
    (0, 0, b"trace refused 2\n"),
    (4, 9, b"trace refused 3\n"),
    (4, 1, b"trace refused 7\n"),
    (6, 1, b"trace refused 5\n"),
    (24, 15, b"trace refused 6\n"),
    (33, 6, b"trace refused 4\n"),
];

#[test]
fn a_refused_trace_is_told(rt: HostRuntime) {
    for &(place, byte, line) in &FAULTS {
        let mut trace = TRACE;
        trace[place] = byte;
        let (status, out, faults) = listed(&rt, &trace, 5, ENDLESS);
        assert_eq!(rt; status, 3);
        assert_eq!(rt; out.bytes.as_slice(), line);
        assert!(rt; faults.bytes.is_empty());
    }
    for length in 0..86 {
        let (status, out, _) = listed(&rt, &TRACE[..length], 5, ENDLESS);
        assert_eq!(rt;
            (status, out.bytes.as_slice()),
            (3, b"trace refused 1\n".as_slice())
        );
    }
}

#[test]
fn a_failing_writer_is_told(rt: HostRuntime) -> Result<(), Fail> {
    for calls in 0..LINES.len() as u64 {
        let (status, out, faults) = listed(&rt, &TRACE, 1, calls);
        assert_eq!(rt; status, 1);
        assert_eq!(rt; out.bytes.len() as u64, calls);
        assert!(rt; LINES.starts_with(out.bytes.as_slice()));
        assert_eq!(rt;
            faults.bytes.as_slice(),
            b"ir: standard output can't be written\n".as_slice()
        );
    }
    let (status, _, faults) = listed(&rt, b"", 1, 3);
    assert_eq!(rt; status, 1);
    assert!(rt; faults.bytes.starts_with(b"ir: "));
    Ok(())
}
