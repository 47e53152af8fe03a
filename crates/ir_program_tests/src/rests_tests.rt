//! Stale writes that rest on what was read, over fakes: a lost update, a guest that puts the same whatever it read, refusals, a writer that
//! fails at each of its calls.

use crate::device_tests::{ENDLESS, Page, empty_page};
use ir_opened::ask_run;
use ir_stale_run::RestsQuestion;
use std::test::Fail;

// A lost update: each of two threads reads a word in one entry, and puts one more in another.
pub const IMAGE: [u8; 154] = [
    73, 82, 73, 49, 2, 1, 25, 0, 0, 0, 0, 0, 0, 0, 0, 0, 1, 0, 0, 0, 1, 0, 19, 5, 0, 0, 147, 8,
    112, 0, 115, 0, 0, 0, 19, 5, 0, 0, 147, 5, 0, 0, 147, 8, 160, 0, 115, 0, 0, 0, 19, 4, 21, 0,
    19, 5, 0, 0, 147, 8, 144, 0, 115, 0, 0, 0, 19, 5, 0, 0, 147, 8, 128, 0, 115, 0, 0, 0, 19, 5, 0,
    0, 147, 5, 0, 0, 19, 6, 4, 0, 147, 8, 176, 0, 115, 0, 0, 0, 19, 5, 0, 0, 147, 8, 144, 0, 115,
    0, 0, 0, 19, 5, 0, 0, 147, 8, 16, 0, 115, 0, 0, 0, 0, 0, 0, 0, 0, 0, 0, 0, 0, 0, 0, 0, 0, 0, 0,
    0, 0, 0, 0, 0, 0, 0, 0, 0, 0, 0, 0, 0, 0, 0, 0, 0,
];

// Both read, then thread 1 writes, then thread 0.
pub const TRACE: [u8; 82] = [
    73, 82, 84, 49, 2, 1, 0, 0, 64, 66, 15, 0, 0, 0, 0, 0, 25, 0, 0, 0, 0, 0, 0, 0, 1, 0, 0, 0, 0,
    2, 0, 0, 0, 4, 0, 0, 0, 0, 0, 5, 0, 1, 0, 0, 0, 0, 0, 0, 0, 25, 0, 0, 0, 0, 0, 0, 0, 1, 0, 0,
    0, 0, 2, 0, 0, 0, 4, 0, 0, 0, 0, 0, 5, 0, 0, 0, 0, 0, 2, 0, 0, 0,
];

// Where the instruction is that adds 1 to the word that was read, and the byte that makes it leave out the word.
const SUM: usize = 52;

const ONE: u8 = 16;

const LINES: &[u8] = b"stale 1 of 2
thread 0 event 1 step 13 write 0 version 1 read event 0 step 2 version 0 overwritten by thread 1 event 1 step 13 word 0 was 00000000 is 00000001 value
";

// The status, and what was written and reported, by writers that take `most` bytes a call, of which that of the lines fails
// after `calls` calls.
fn listed(
    rt: &HostRuntime,
    image: &[u8],
    trace: &[u8],
    most: usize,
    calls: u64,
) -> (u8, Page, Page) {
    let mut out = empty_page(rt, most, calls);
    let mut faults = empty_page(rt, most, ENDLESS);
    let status = ask_run(
        rt.alloc(),
        image,
        trace,
        &RestsQuestion,
        &mut out,
        &mut faults,
    );
    (status.number(), out, faults)
}

#[test]
fn a_lost_update_rests_on_its_read(rt: HostRuntime) {
    for most in [1, 7, 1000] {
        let (status, out, faults) = listed(&rt, &IMAGE, &TRACE, most, ENDLESS);
        assert_eq!(rt; status, 0);
        assert_eq!(rt; out.bytes.as_slice(), LINES);
        assert!(rt; faults.bytes.is_empty());
    }
}

#[test]
fn what_is_put_whatever_was_read_does_not(rt: HostRuntime) {
    let mut image = IMAGE;
    image[SUM] = ONE;
    let (status, out, _) = listed(&rt, &image, &TRACE, 1000, ENDLESS);
    assert_eq!(rt; status, 0);
    assert_eq!(rt; out.bytes.as_slice(), b"stale 0 of 2\n".as_slice());
}

#[test]
fn no_image_no_trace_and_no_run_are_told(rt: HostRuntime) {
    let mut other = TRACE;
    other[5] = 2;
    let cut_image = listed(&rt, &IMAGE[..9], &TRACE, 5, ENDLESS);
    let cut_trace = listed(&rt, &IMAGE, &TRACE[..9], 5, ENDLESS);
    let no_run = listed(&rt, &IMAGE, &other, 5, ENDLESS);
    let answers = [
        (cut_image, 3, b"image refused 1\n".as_slice()),
        (cut_trace, 3, b"trace refused 1\n".as_slice()),
        (no_run, 4, b"header differs 2\n".as_slice()),
    ];
    for ((status, out, faults), wanted, line) in &answers {
        assert_eq!(rt; status, wanted);
        assert_eq!(rt; out.bytes.as_slice(), *line);
        assert!(rt; faults.bytes.is_empty());
    }
}

#[test]
fn a_failing_writer_is_told(rt: HostRuntime) -> Result<(), Fail> {
    for calls in 0..LINES.len() as u64 {
        let (status, out, faults) = listed(&rt, &IMAGE, &TRACE, 1, calls);
        assert_eq!(rt; status, 1);
        assert_eq!(rt; out.bytes.len() as u64, calls);
        assert!(rt; LINES.starts_with(out.bytes.as_slice()));
        assert_eq!(rt;
            faults.bytes.as_slice(),
            b"ir: standard output can't be written\n".as_slice()
        );
    }
    Ok(())
}
