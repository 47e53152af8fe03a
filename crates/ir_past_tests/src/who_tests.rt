//! Versions of objects of traces made by hand: all, one, and what isn't there.

use crate::page::{ENDLESS, Page, empty_page};
use crate::traces::LOST;
use ir_past::ask_trace;
use ir_who::Question;

const OBJECT: &[u8] = b"object 0 versions 3
version 0 by first words readers 2
version 1 by thread 1 event 1 readers 0
version 2 by thread 0 event 1 readers 0
";

const FIRST: &[u8] = b"version 0 by first words readers 2
read thread 0 event 0
read thread 1 event 0
overwritten by thread 1 event 1
";

const LAST: &[u8] = b"version 2 by thread 0 event 1 readers 0
last
";

// The status, and what was written and reported, by a writer that fails after `calls` calls.
fn who(rt: &HostRuntime, trace: &[u8], asked: Question, calls: u64) -> (u8, Page, Page) {
    let mut out = empty_page(rt, 1000, calls);
    let mut faults = empty_page(rt, 1000, ENDLESS);
    let status = ask_trace(rt.alloc(), trace, &asked, &mut out, &mut faults);
    (status.number(), out, faults)
}

fn of(object: u32, version: Option<u32>) -> Question {
    Question { object, version }
}

#[test]
fn the_versions_of_an_object_are_listed(rt: HostRuntime) {
    let (status, out, faults) = who(&rt, &LOST, of(0, None), ENDLESS);
    assert_eq!(rt; status, 0);
    assert_eq!(rt; out.bytes.as_slice(), OBJECT);
    assert!(rt; faults.bytes.is_empty());
}

#[test]
fn a_version_is_told(rt: HostRuntime) {
    for (version, lines) in [(0, FIRST), (2, LAST)] {
        let (status, out, faults) = who(&rt, &LOST, of(0, Some(version)), ENDLESS);
        assert_eq!(rt; status, 0);
        assert_eq!(rt; out.bytes.as_slice(), lines);
        assert!(rt; faults.bytes.is_empty());
    }
}

#[test]
fn what_is_not_there_is_refused(rt: HostRuntime) {
    for (asked, words) in [
        (
            of(1, None),
            b"ir: the trace has no object of this number\n".as_slice(),
        ),
        (
            of(256, Some(0)),
            b"ir: the trace has no object of this number\n".as_slice(),
        ),
        (
            of(0, Some(3)),
            b"ir: the object has no version of this number\n".as_slice(),
        ),
    ] {
        let (status, out, faults) = who(&rt, &LOST, asked, ENDLESS);
        assert_eq!(rt; status, 2);
        assert!(rt; out.bytes.is_empty());
        assert_eq!(rt; faults.bytes.as_slice(), words);
    }
}

#[test]
fn a_failing_writer_is_reported(rt: HostRuntime) {
    let (status, out, faults) = who(&rt, &LOST, of(0, None), 0);
    assert_eq!(rt; status, 1);
    assert!(rt; out.bytes.is_empty());
    assert_eq!(rt;
        faults.bytes.as_slice(),
        b"ir: standard output can't be written\n".as_slice()
    );
}
