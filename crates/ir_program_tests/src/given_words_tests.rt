//! What is given on the command line reaches the recording: the trace shows it.

use crate::device_tests::ENDLESS;
use crate::program_tests::{prepared, ran_at, says};
use crate::shelf::Shelf;
use std::alloc::AllocGlobal;
use std::sync::Wait;
use std::test::Fail;
use std::thread::Threads;
use std::time::Clock;

// Reads a byte and a random word, and ends with that.
const ASKING: &[u8] =
    b"addi a7, zero, 6\necall\naddi a7, zero, 5\necall\naddi a7, zero, 1\necall\n";

// Tries to enter object 0, and ends with the answer.
const TRYING: &[u8] =
    b".objects 1\naddi a0, zero, 0\naddi a7, zero, 13\necall\naddi a7, zero, 1\necall\n";

const ASKED: &str = "thread 0 end 1 code 2442223337 steps 6 events 2\n";

const ASKED_TRACE: &str = "threads 1 objects 0 budget 500 profile 1
thread 0 end 1 code 2442223337 steps 6 events 2
log 2 of 2
0 input 65
1 random 2442223337
";

const TRIED: &str = "thread 0 end 1 code 1 steps 6 events 1\n";

const TRIED_TRACE: &str = "threads 1 objects 1 budget 1000000 profile 2
thread 0 end 1 code 1 steps 6 events 1
log 1 of 1
0 write 0 version 0 readers 0
";

// In turn: the words, and what is written.
const TURNS: [(&str, &str); 8] = [
    ("ir asm asking.s asking.img", ""),
    ("ir asm trying.s trying.img", ""),
    (
        "ir record asking.img a.trc --order 0 --random 7 --input in --budget 500",
        ASKED,
    ),
    ("ir trace a.trc", ASKED_TRACE),
    (
        "ir record asking.img a.trc --random 7 --input in --budget 500",
        ASKED,
    ),
    ("ir trace a.trc", ASKED_TRACE),
    ("ir record trying.img t.trc --profile 2", TRIED),
    ("ir trace t.trc", TRIED_TRACE),
];

#[test]
fn what_is_given_is_recorded(rt: HostRuntime) -> Result<(), Fail> {
    let shelf = prepared(&rt)?;
    shelf.add_file("asking.s", ASKING)?;
    shelf.add_file("trying.s", TRYING)?;
    shelf.add_file("in", b"A")?;
    for (line, written) in &TURNS {
        assert!(rt; says(&rt, &shelf, line, b"", (0, written, ""))?, "{line}");
    }
    Ok(())
}

// Ends with code 0.
const ENDING: &[u8] = b"addi a0, zero, 0\naddi a7, zero, 1\necall\n";

const ENDED: &str = "thread 0 end 1 code 0 steps 3 events 0\n";

const DOUBLED: &str = "thread 0 end 1 code 144 steps 6 events 0\n";

const BROKEN: &str =
    "thread 0 end 2 code 0 steps 4 events 0\nthread 1 end 2 code 0 steps 1 events 0\n";

// The words, the exit status, what is written, and what is reported at a terminal.
const ENDS: [(&str, u8, &str, &str); 5] = [
    ("ir record ending.img e.trc --status", 0, ENDED, ""),
    (
        "ir record d.img e.trc --status",
        5,
        DOUBLED,
        "ir: thread 0 ended by END with code 144\n",
    ),
    (
        "ir record d.img e.trc",
        0,
        DOUBLED,
        "ir: thread 0 ended by END with code 144\n",
    ),
    (
        "ir record two.img e.trc --status --order 0",
        5,
        BROKEN,
        "ir: thread 0 ended: EBREAK\nir: thread 1 ended: EBREAK\n",
    ),
    (
        "ir record ending.img e.trc --status --budget 2",
        5,
        "thread 0 end 13 code 0 steps 3 events 0\n",
        "ir: thread 0 ended: the budget is spent\n",
    ),
];

#[test]
fn ends_are_answered(rt: HostRuntime) -> Result<(), Fail> {
    let shelf = prepared(&rt)?;
    shelf.add_file("ending.s", ENDING)?;
    assert!(rt; says(&rt, &shelf, "ir asm ending.s ending.img", b"", (0, "", ""))?);
    for &(line, status, written, told) in &ENDS {
        assert!(rt;
            says(&rt, &shelf, line, b"", (status, written, ""))?,
            "{line}"
        );
        let (_, _, faults) = ran_at(&rt, &shelf, line, b"", ENDLESS, true)?;
        assert!(rt; faults.bytes.as_slice() == told.as_bytes(), "{line}");
    }
    Ok(())
}

// What is reported of files that aren't as they should be, beside what is written.
const REFUSED: [(&str, &str, &str); 4] = [
    (
        "ir debug e.trc ending.img",
        "image refused 2\n",
        "ir: IMAGE and TRACE are exchanged\n",
    ),
    (
        "ir debug ending.s e.trc",
        "image refused 2\n",
        "ir: the image is refused: these bytes are no image\n",
    ),
    (
        "ir debug ending.img ending.s",
        "trace refused 2\n",
        "ir: the trace is refused: these bytes are no trace\n",
    ),
    (
        "ir debug d.img e.trc",
        "thread 0 disagrees event 0 step 3\n",
        "ir: no run of this image has this trace: it may be another image's, or the image was changed\n",
    ),
];

#[test]
fn refused_files_are_explained(rt: HostRuntime) -> Result<(), Fail> {
    let shelf = prepared(&rt)?;
    shelf.add_file("ending.s", ENDING)?;
    for line in ["ir asm ending.s ending.img", "ir record ending.img e.trc"] {
        ran_at(&rt, &shelf, line, b"", ENDLESS, false)?;
    }
    for &(line, written, told) in &REFUSED {
        for at_terminal in [true, false] {
            let (_, out, faults) = ran_at(&rt, &shelf, line, b"", ENDLESS, at_terminal)?;
            assert!(rt; out.bytes.as_slice() == written.as_bytes(), "{line}");
            assert!(rt; faults.bytes.as_slice() == told.as_bytes(), "{line}");
        }
    }
    Ok(())
}
