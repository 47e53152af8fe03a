//! `ir why` by its words, over a folder in memory: each exit status with what is written and reported.

use crate::device_tests::ENDLESS;
use crate::program_tests::{ran_at, says};
use crate::view_tests::traces;
use std::test::Fail;

const FIRST: &str = "thread 1 event 1 write 0 version 0 readers 2
needs thread 0 event 0 read 0 version 0
past 1 1
since thread 1 event 1 waited for thread 0 event 0
";

const LAST: &str = "thread 0 event 1 write 0 version 1 readers 0
needs thread 1 event 1 write 0 version 0 readers 2
past 1 2
since thread 0 event 1 waited for thread 1 event 1
since thread 1 event 1 waited for thread 0 event 0
";

const ONE_LINE: &str = "thread 0 event 1 write 0 version 1 readers 0
needs thread 1 event 1 write 0 version 0 readers 2
past 1 2
since thread 0 event 1 waited for thread 1 event 1
";

// The words, the exit status, what is written, and what is reported.
const ROWS: [(&str, u8, &str, &str); 13] = [
    (
        "ir why lost.trc 1",
        2,
        "",
        "ir: the following required arguments were not provided: <E>\n",
    ),
    (
        "ir why lost.trc x 0",
        2,
        "",
        "ir: T: 'x' is no number up to 4294967295\n",
    ),
    (
        "ir why lost.trc 0 4294967296",
        2,
        "",
        "ir: E: '4294967296' is no number up to 4294967295\n",
    ),
    (
        "ir why lost.trc 258 0",
        2,
        "",
        "ir: the trace has no thread of this number\n",
    ),
    (
        "ir why circle.trc 0 2",
        2,
        "",
        "ir: the thread has no event of this number\n",
    ),
    (
        "ir why short.trc 0 0",
        3,
        "trace refused 1\n",
        "ir: the trace is refused: a field passes the end\n",
    ),
    (
        "ir why broken.trc 9 9",
        4,
        "incoherent thread 1 event 1 cause 3\n",
        "",
    ),
    ("ir why circle.trc 1 1", 4, "circle thread 0 event 0\n", ""),
    (
        "ir why lost.trc 1 0",
        0,
        "thread 1 event 0 read 0 version 0\npast 0 0\n",
        "",
    ),
    ("ir why lost.trc 1 1", 0, FIRST, ""),
    ("ir why lost.trc 0 1", 0, LAST, ""),
    ("ir why lost.trc 0 1 --lines 1", 0, ONE_LINE, ""),
    (
        "ir why lost.trc 0 1 --lines x",
        2,
        "",
        "ir: --lines: 'x' is no number up to 4294967295\n",
    ),
];

#[test]
fn each_status_with_its_words(rt: HostRuntime) -> Result<(), Fail> {
    let shelf = traces(&rt)?;
    for &(line, status, written, told) in &ROWS {
        assert!(rt;
            says(&rt, &shelf, line, b"", (status, written, told))?,
            "{line}"
        );
    }
    Ok(())
}

#[test]
fn an_output_that_fails(rt: HostRuntime) -> Result<(), Fail> {
    let shelf = traces(&rt)?;
    let (status, out, faults) = ran_at(&rt, &shelf, "ir why lost.trc 0 1", b"", 0, false)?;
    assert_eq!(rt; (status, out.bytes.len()), (1, 0));
    assert_eq!(rt;
        faults.bytes.as_slice(),
        b"ir: standard output can't be written\n".as_slice()
    );
    Ok(())
}
