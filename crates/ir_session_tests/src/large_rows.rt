//! Sessions on traces of sixteen threads at an object of sixteen words.

use crate::sessions::{Files, Said, is_answered};
use ir_tests::guests::{LAST_WORD, SIXTEEN_COUNTERS, SIXTEEN_READERS, Source};
use ir_tests::recordings::{BUDGET, tried_in_order};
use ir_tests::sources::image_bytes;
use ir_trace::write_trace;
use std::alloc::Global;
use std::process::Abort;
use std::test::Fail;
use std::thread::Threads;
use std::time::Clock;

// Of `SIXTEEN_COUNTERS`, recorded in rounds: each thread is inside after the one before it.
const COUNTED: [Said; 5] = [
    (
        "end\nobj 0\n",
        "ready\nat 18 18 18 18 18 18 18 18 18 18 18 18 18 18 18 18\n\
version 16 left 0 readers - writer -\n\
words 00000010 00000000 00000000 00000000 00000000 00000000 00000000 00000000 \
00000000 00000000 00000000 00000000 00000000 00000000 00000000 00000000\n",
    ),
    // Each thread before the last has left when that is inside.
    (
        "step 15 3\nobj 0\nlog 15\nnext 15\n",
        "ready\nat 15 15 15 15 15 15 15 15 15 15 15 15 15 15 15 3\n\
version 15 left 0 readers - writer 15\n\
words 0000000f 00000000 00000000 00000000 00000000 00000000 00000000 00000000 \
00000000 00000000 00000000 00000000 00000000 00000000 00000000 00000000\n\
log 1 of 1\n0 write 0 version 15 readers 0\nnext 0001000c addi a0, zero, 0\n",
    ),
    // Kept cuts, and back.
    (
        "step 15 3\nkeep\nend\nload 1\nback 0 1\nkept\n",
        "ready\nat 15 15 15 15 15 15 15 15 15 15 15 15 15 15 15 3\nkept 1\n\
at 18 18 18 18 18 18 18 18 18 18 18 18 18 18 18 18\n\
at 15 15 15 15 15 15 15 15 15 15 15 15 15 15 15 3\n\
at 14 2 2 2 2 2 2 2 2 2 2 2 2 2 2 2\n\
0 at 0 0 0 0 0 0 0 0 0 0 0 0 0 0 0 0\n\
1 at 15 15 15 15 15 15 15 15 15 15 15 15 15 15 15 3\n",
    ),
    // A leave hits; others move as far as it needs.
    (
        "owatch 0\ncont 15\ncont 15\nrcont 15\nbreak 15 0x10000\nrcont 15\n",
        "ready\npoint 1\nat 15 15 15 15 15 15 15 15 15 15 15 15 15 15 15 15 hit 1\n\
at 15 15 15 15 15 15 15 15 15 15 15 15 15 15 15 18 end\n\
at 15 15 15 15 15 15 15 15 15 15 15 15 15 15 15 15 hit 1\npoint 2\n\
at 15 15 15 15 15 15 15 15 15 15 15 15 15 15 15 0 hit 2 start\n",
    ),
    (
        "regs 16\nstep 16 1\nobj 1\nobj 63\nbreak 16 0x10000\n",
        "ready\nrefused 3 no such thread\nrefused 3 no such thread\nrefused 4 no such object\n\
refused 4 no such object\nrefused 3 no such thread\n",
    ),
];

// Of `SIXTEEN_READERS`, recorded in rounds: all are inside at the same time.
const READ: [Said; 1] = [(
    "step 15 3\nstep 9 3\nstep 10 3\nobj 0\nend\nobj 0\n",
    "ready\nat 0 0 0 0 0 0 0 0 0 0 0 0 0 0 0 3\n\
at 0 0 0 0 0 0 0 0 0 3 0 0 0 0 0 3\n\
at 0 0 0 0 0 0 0 0 0 3 3 0 0 0 0 3\n\
version 0 left 0 readers 9,10,15 writer -\n\
words 00000000 00000000 00000000 00000000 00000000 00000000 00000000 00000000 \
00000000 00000000 00000000 00000000 00000000 00000000 00000000 00000000\n\
at 7 7 7 7 7 7 7 7 7 7 7 7 7 7 7 7\n\
version 0 left 16 readers - writer -\n\
words 00000000 00000000 00000000 00000000 00000000 00000000 00000000 00000000 \
00000000 00000000 00000000 00000000 00000000 00000000 00000000 00000000\n",
)];

// Of `LAST_WORD`.
const PUT: [Said; 1] = [(
    "end\nobj 0\n",
    "ready\nat 9\nversion 1 left 0 readers - writer -\n\
words 00000000 00000000 00000000 00000000 00000000 00000000 00000000 00000000 \
00000000 00000000 00000000 00000000 00000000 00000000 00000000 00000007\n",
)];

// The guest, and its trace where it is recorded in rounds.
fn files_of(alloc: Global, source: Source) -> Result<Files, Fail> {
    let fitted = tried_in_order(alloc, source, &[], BUDGET)?;
    Ok(Files {
        image: image_bytes(alloc, source)?,
        trace: write_trace(alloc, fitted.trace())?,
    })
}

// Asserts that sessions answer so.
fn are_answered<R: AllocGlobal + Threads + Clock + Sync + Abort>(
    rt: &R,
    source: Source,
    sessions: &[Said],
) -> Result<(), Fail> {
    let files = files_of(rt.alloc(), source)?;
    for (lines, answers) in sessions {
        assert!(rt;
            is_answered(rt, &files, lines.as_bytes(), answers.as_bytes()),
            "{answers}"
        );
    }
    Ok(())
}

#[test]
fn sixteen_writers_are_answered(rt: HostRuntime) -> Result<(), Fail> {
    are_answered(&rt, SIXTEEN_COUNTERS, &COUNTED)
}

#[test]
fn sixteen_readers_are_answered(rt: HostRuntime) -> Result<(), Fail> {
    are_answered(&rt, SIXTEEN_READERS, &READ)
}

#[test]
fn the_last_word_is_answered(rt: HostRuntime) -> Result<(), Fail> {
    are_answered(&rt, LAST_WORD, &PUT)
}
