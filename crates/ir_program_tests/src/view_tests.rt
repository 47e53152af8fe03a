//! `ir view` by its words, over a folder in memory: each exit status with what is written and reported.

use crate::device_tests::ENDLESS;
use crate::program_tests::{ran_at, says};
use crate::shelf::Shelf;
use std::alloc::AllocGlobal;
use std::sync::Wait;
use std::test::Fail;
use std::thread::Threads;
use std::time::Clock;

// Both threads read version 0; thread 1 writes over it, and then thread 0 writes over that.
const LOST: [u8; 82] = [
    0x49, 0x52, 0x54, 0x31, 2, 1, 0, 0, 0xe8, 3, 0, 0, 0, 0, 0, 0, // header
    20, 0, 0, 0, 0, 0, 0, 0, 1, 0, 0, 0, 0, 2, 0, 0, 0, // thread 0
    4, 0, 0, 0, 0, 0, // read 0 version 0
    5, 0, 1, 0, 0, 0, 0, 0, 0, 0, // write 0 version 1 readers 0
    20, 0, 0, 0, 0, 0, 0, 0, 1, 0, 0, 0, 0, 2, 0, 0, 0, // thread 1
    4, 0, 0, 0, 0, 0, // read 0 version 0
    5, 0, 0, 0, 0, 0, 2, 0, 0, 0, // write 0 version 0 readers 2
];

const DATA: &str = "{\"ir_view\":1,\"steps\":false,\"objects\":1,\"profile\":1,\"threads\":[
{\"end\":1,\"code\":0,\"steps\":20,\"events\":2,\"x\":6,\"u\":4},
{\"end\":1,\"code\":0,\"steps\":20,\"events\":2,\"x\":4,\"u\":3}
],\"boxes\":[
[0,0,1,4,0,0,0,0,1,1,1,1,0],
[0,1,1,5,0,1,0,4,5,3,3,2,0],
[1,0,1,4,0,0,0,0,1,1,1,1,0],
[1,1,1,5,0,0,2,2,3,2,2,2,0]
],\"stale\":[
[0,0,1]
]}
";

const PART: &str =
    "{\"ir_view\":1,\"steps\":false,\"objects\":1,\"profile\":1,\"around\":[1,1,1],\"threads\":[
{\"end\":1,\"code\":0,\"steps\":20,\"events\":2,\"x\":6,\"u\":4},
{\"end\":1,\"code\":0,\"steps\":20,\"events\":2,\"x\":4,\"u\":3}
],\"boxes\":[
[1,1,1,5,0,0,2,2,3,2,2,2,0]
],\"stale\":[
]}
";

// Each thread first reads what the other writes after its own read.
const CIRCLE: [u8; 82] = [
    0x49, 0x52, 0x54, 0x31, 2, 2, 0, 0, 0xe8, 3, 0, 0, 0, 0, 0, 0, // header
    20, 0, 0, 0, 0, 0, 0, 0, 1, 0, 0, 0, 0, 2, 0, 0, 0, // thread 0
    4, 0, 1, 0, 0, 0, // read 0 version 1
    5, 1, 0, 0, 0, 0, 0, 0, 0, 0, // write 1 version 0 readers 0
    20, 0, 0, 0, 0, 0, 0, 0, 1, 0, 0, 0, 0, 2, 0, 0, 0, // thread 1
    4, 1, 1, 0, 0, 0, // read 1 version 1
    5, 0, 0, 0, 0, 0, 0, 0, 0, 0, // write 0 version 0 readers 0
];

/// The traces, one of them with a version that no event made, and one of them cut off.
pub fn traces<R: Threads + Wait + Sync + Clock + Eprint + AllocGlobal>(
    rt: &R,
) -> Result<Shelf, Fail> {
    let shelf = Shelf::new(rt.alloc());
    let mut broken = LOST;
    broken[78] = 1;
    shelf.add_file("lost.trc", &LOST)?;
    shelf.add_file("circle.trc", &CIRCLE)?;
    shelf.add_file("broken.trc", &broken)?;
    shelf.add_file("short.trc", &LOST[..81])?;
    Ok(shelf)
}

// What is said of a trace of which there is no picture.
const NO_PICTURE: &str =
    "ir: no run has this trace, or a page would have too many boxes (--around T E shows a part): see the line that was printed\n";

// The words, the exit status, what is written, and what is reported.
const ROWS: [(&str, u8, &str, &str); 14] = [
    (
        "ir view",
        2,
        "",
        "ir: the following required arguments were not provided: <TRACE>\n",
    ),
    (
        "ir view lost.trc --json --chrome",
        2,
        "",
        "ir: the argument '--json' cannot be used with '--chrome'\n",
    ),
    (
        "ir view lost.trc --around 1 x",
        2,
        "",
        "ir: --around: 'x' is no number up to 4294967295\n",
    ),
    (
        "ir view lost.trc --around 1 -1",
        2,
        "",
        "ir: unexpected argument '-1' found\n",
    ),
    (
        "ir view lost.trc --around 1 1 --span=-1",
        2,
        "",
        "ir: --span: '-1' is no number up to 18446744073709551615\n",
    ),
    (
        "ir view lost.trc --around 2 0",
        2,
        "",
        "ir: the trace has no thread of this number\n",
    ),
    (
        "ir view lost.trc --around 0 2",
        2,
        "",
        "ir: the thread has no event of this number\n",
    ),
    (
        "ir view short.trc",
        3,
        "trace refused 1\n",
        "ir: the trace is refused: a field passes the end\n",
    ),
    (
        "ir view broken.trc",
        4,
        "incoherent thread 1 event 1 cause 3\n",
        NO_PICTURE,
    ),
    (
        "ir view broken.trc --around 9 9",
        4,
        "incoherent thread 1 event 1 cause 3\n",
        NO_PICTURE,
    ),
    (
        "ir view circle.trc",
        4,
        "circle thread 0 event 0\n",
        NO_PICTURE,
    ),
    (
        "ir view circle.trc --chrome",
        4,
        "circle thread 0 event 0\n",
        NO_PICTURE,
    ),
    ("ir view lost.trc --json", 0, DATA, ""),
    ("ir view lost.trc --json --around 1 1 --span 1", 0, PART, ""),
];

#[test]
fn each_status_with_its_words(rt: HostRuntime) -> Result<(), Fail> {
    let shelf = traces(&rt)?;
    for &(line, status, written, told) in &ROWS {
        assert!(rt;
            says(&rt, &shelf, line, b"", (status, written, told))?,
            "{line}"
        );
    }
    Ok(())
}

#[test]
fn a_page_and_events_for_other_viewers(rt: HostRuntime) -> Result<(), Fail> {
    let shelf = traces(&rt)?;
    let (status, page, faults) = ran_at(&rt, &shelf, "ir view lost.trc", b"", ENDLESS, false)?;
    assert_eq!(rt; (status, faults.bytes.len()), (0, 0));
    assert!(rt; page.bytes.starts_with(b"<!DOCTYPE html>\n"));
    assert!(rt; page.bytes.ends_with(b"</html>\n"));
    let (status, lines, faults) = ran_at(
        &rt,
        &shelf,
        "ir view --chrome lost.trc",
        b"",
        ENDLESS,
        false,
    )?;
    assert_eq!(rt; (status, faults.bytes.len()), (0, 0));
    assert!(rt; lines.bytes.starts_with(b"{\"traceEvents\":[\n"));
    assert!(rt; lines.bytes.ends_with(b"{\"source\":\"ir view\"}}\n"));
    Ok(())
}

#[test]
fn a_file_or_an_output_that_fails(rt: HostRuntime) -> Result<(), Fail> {
    let shelf = traces(&rt)?;
    let (status, out, faults) = ran_at(&rt, &shelf, "ir view none.trc", b"", ENDLESS, false)?;
    assert_eq!(rt; (status, out.bytes.len()), (1, 0));
    assert_eq!(rt;
        faults.bytes.as_slice(),
        b"ir: none.trc can't be read: no such file or folder\n".as_slice()
    );
    let (status, out, faults) = ran_at(&rt, &shelf, "ir view lost.trc", b"", 1, false)?;
    assert_eq!(rt; (status, out.bytes.len()), (1, 1000));
    assert_eq!(rt;
        faults.bytes.as_slice(),
        b"ir: standard output can't be written\n".as_slice()
    );
    Ok(())
}
