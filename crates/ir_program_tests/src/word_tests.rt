//! The versions in which a word of an object changed, over fakes: a lost update, refusals, a writer that fails at each of its calls.

use crate::device_tests::{ENDLESS, Page, empty_page};
use crate::rests_tests::{IMAGE, TRACE};
use ir_opened::ask_run;
use ir_who_word::Question;
use std::test::Fail;

// Version 2 has the word of version 1.
const LINES: &[u8] = b"object 0 versions 3
version 0 by first words word 0 00000000
version 1 by thread 1 event 1 step 18 word 0 00000001
";

// The status, and what was written and reported, by writers that take `most` bytes a call, of which that of the lines fails
// after `calls` calls.
fn listed(rt: &HostRuntime, asked: Question, most: usize, calls: u64) -> (u8, Page, Page) {
    let mut out = empty_page(rt, most, calls);
    let mut faults = empty_page(rt, most, ENDLESS);
    let status = ask_run(rt.alloc(), &IMAGE, &TRACE, &asked, &mut out, &mut faults);
    (status.number(), out, faults)
}

#[test]
fn a_change_is_listed_and_the_same_word_is_not(rt: HostRuntime) {
    for most in [1, 7, 1000] {
        let (status, out, faults) = listed(&rt, Question { object: 0, word: 0 }, most, ENDLESS);
        assert_eq!(rt; status, 0);
        assert_eq!(rt; out.bytes.as_slice(), LINES);
        assert!(rt; faults.bytes.is_empty());
    }
}

#[test]
fn a_word_that_no_thread_puts_has_one_line(rt: HostRuntime) {
    let (status, out, _) = listed(&rt, Question { object: 0, word: 7 }, 1000, ENDLESS);
    assert_eq!(rt; status, 0);
    assert_eq!(rt;
        out.bytes.as_slice(),
        b"object 0 versions 3\nversion 0 by first words word 7 00000000\n".as_slice()
    );
}

#[test]
fn what_is_not_there_is_refused(rt: HostRuntime) {
    for (object, word, line) in [
        (1, 0, "ir: the trace has no object of this number\n"),
        (256, 8, "ir: the trace has no object of this number\n"),
        (0, 8, "ir: the object has no word of this number\n"),
        (0, 256, "ir: the object has no word of this number\n"),
    ] {
        let (status, out, faults) = listed(&rt, Question { object, word }, 1000, ENDLESS);
        assert_eq!(rt; status, 2);
        assert!(rt; out.bytes.is_empty());
        assert_eq!(rt; faults.bytes.as_slice(), line.as_bytes());
    }
}

#[test]
fn a_writer_that_fails_has_a_prefix(rt: HostRuntime) -> Result<(), Fail> {
    for calls in 0..12 {
        let (status, out, faults) = listed(&rt, Question { object: 0, word: 0 }, 7, calls);
        assert_eq!(rt; status, 1);
        let written = out.bytes.as_slice();
        assert!(rt; LINES.get(..written.len()) == Some(written));
        assert_eq!(rt;
            faults.bytes.as_slice(),
            b"ir: standard output can't be written\n".as_slice()
        );
    }
    Ok(())
}
