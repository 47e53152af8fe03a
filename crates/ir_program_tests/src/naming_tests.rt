//! Answers with names, over files in memory.

use crate::device_tests::ENDLESS;
use crate::program_tests::{prepared, ran_at, says};
use crate::shelf::Shelf;
use std::alloc::AllocGlobal;
use std::sync::Wait;
use std::test::Fail;
use std::thread::Threads;
use std::time::Clock;

// Tries to enter object 0, and ends with the answer.
const TRYING: &[u8] =
    b".objects 1\naddi a0, zero, 0\naddi a7, zero, 13\necall\naddi a7, zero, 1\necall\n";

const NAMES: &[u8] = b"thread 0 first\r\n\nobject 0 word 0 it\nthread 0 second\nobject 0 lock\n";

// Its third line is none.
const FAULTY: &[u8] = b"thread 0 first\n\nthread first\n";

const PLAIN: &str = "threads 1 objects 1 budget 1000000 profile 2
thread 0 end 1 code 1 steps 6 events 1
log 1 of 1
0 write 0 version 0 readers 0
";

const NAMED: &str = "threads 1 objects 1 budget 1000000 profile 2
thread 0 <first> end 1 code 1 steps 6 events 1
log 1 of 1
0 write 0 <lock> version 0 readers 0
";

// The words, the exit status, what is written, and what is reported.
const ROWS: [(&str, u8, &str, &str); 14] = [
    ("ir trace t.trc", 0, PLAIN, ""),
    ("ir trace t.trc --names names", 0, NAMED, ""),
    ("ir --names=names trace t.trc", 0, NAMED, ""),
    ("ir trace --names empty t.trc", 0, PLAIN, ""),
    (
        "ir record trying.img u.trc --profile 2 --names names",
        0,
        "thread 0 <first> end 1 code 1 steps 6 events 1\n",
        "",
    ),
    (
        "ir trace t.trc --names faulty",
        3,
        "",
        "ir: faulty: line 3 is no line of names\n",
    ),
    (
        "ir trace none.trc --names faulty",
        3,
        "",
        "ir: faulty: line 3 is no line of names\n",
    ),
    (
        "ir trace none.trc --names names",
        1,
        "",
        "ir: none.trc can't be read: no such file or folder\n",
    ),
    (
        "ir trace t.trc --names none",
        1,
        "",
        "ir: none can't be read: no such file or folder\n",
    ),
    (
        "ir trace t.trc --names",
        2,
        "",
        "ir: --names wants the FILE with the names, and is given once\n",
    ),
    (
        "ir trace t.trc --names names --names=names",
        2,
        "",
        "ir: --names wants the FILE with the names, and is given once\n",
    ),
    (
        "ir asm d.s x.img --names names",
        2,
        "",
        "ir: --names is for record, hunt, shrink, explore, list, trace, events, stale, who, why and diff\n",
    ),
    (
        "ir --names names",
        2,
        "",
        "ir: --names is for record, hunt, shrink, explore, list, trace, events, stale, who, why and diff\n",
    ),
    (
        "ir play --names faulty",
        2,
        "",
        "ir: unrecognized subcommand 'play': see ir --help\n",
    ),
];

// Also a trace, and three files of names: whole, faulty and empty.
fn with_names<R: Threads + Wait + Sync + Clock + Eprint + AllocGlobal>(
    rt: &R,
) -> Result<Shelf, Fail> {
    let shelf = prepared(rt)?;
    shelf.add_file("trying.s", TRYING)?;
    shelf.add_file("names", NAMES)?;
    shelf.add_file("faulty", FAULTY)?;
    shelf.add_file("empty", b"")?;
    for line in [
        "ir asm trying.s trying.img",
        "ir record trying.img t.trc --profile 2",
    ] {
        ran_at(rt, &shelf, line, b"", ENDLESS, false)?;
    }
    Ok(shelf)
}

#[test]
fn answers_have_names(rt: HostRuntime) -> Result<(), Fail> {
    let shelf = with_names(&rt)?;
    for &(line, status, written, told) in &ROWS {
        assert!(rt;
            says(&rt, &shelf, line, b"", (status, written, told))?,
            "{line}"
        );
    }
    assert!(rt; shelf.bytes_of("x.img").is_none());
    Ok(())
}

#[test]
fn a_failing_writer_has_the_beginning_with_names(rt: HostRuntime) -> Result<(), Fail> {
    let shelf = with_names(&rt)?;
    for calls in 0..3 {
        let line = "ir trace t.trc --names names";
        let (status, out, faults) = ran_at(&rt, &shelf, line, b"", calls, false)?;
        assert_eq!(rt; status, 1);
        assert!(rt; NAMED.as_bytes().starts_with(out.bytes.as_slice()));
        assert_eq!(rt;
            faults.bytes.as_slice(),
            b"ir: standard output can't be written\n".as_slice()
        );
    }
    Ok(())
}
