//! Sessions on traces of a guest that tries to enter an object.

use crate::sessions::{Files, Said, is_answered};
use ir_tests::patches::{Patch, UNPATCHED, patched};
use ir_tests::sources::image_bytes;
use ir_tests::trying_guests::TRYING;
use std::alloc::Global;
use std::process::Abort;
use std::test::Fail;
use std::thread::Threads;
use std::time::Clock;

// The trace where the thread was refused.
const REFUSED: &[u8] =
    b"IRT2\x01\x01\0\0\xe8\x03\0\0\0\0\0\0\x05\0\0\0\0\0\0\0\x01\0\0\0\0\x01\0\0\0\x06\0";

// The trace where it entered.
const ENTERED: &[u8] =
    b"IRT2\x01\x01\0\0\xe8\x03\0\0\0\0\0\0\x06\0\0\0\0\0\0\0\x01\x01\0\0\0\x01\0\0\0\x05\0\0\0\0\0\0\0\0\0";

// The magic of the first profile.
const FIRST_PROFILE: Patch = (3, b"1", 4);

// A trace, what replaces some of its bytes, and a session.
type Tried = (&'static [u8], Patch, Said);

const TRIED: [Tried; 6] = [
    (
        REFUSED,
        UNPATCHED,
        ("end\nlog 0\n", "ready\nat 5\nlog 1 of 1\n0 try 0\n"),
    ),
    // It is refused again, though no thread is inside.
    (
        REFUSED,
        UNPATCHED,
        (
            "step 0 3\nobj 0\nback 0 1\nlog 0\nnext 0\nstep 0 1\nlog 0\n",
            "ready\nat 3\nversion 0 left 0 readers - writer -\n\
words 00000000 00000000 00000000 00000000 00000000 00000000 00000000 00000000\nat 2\nlog 0 of 1\n\
next 00010008 ecall\nat 3\nlog 1 of 1\n0 try 0\n",
        ),
    ),
    (
        ENTERED,
        UNPATCHED,
        (
            "end\nlog 0\nback 0 1\nobj 0\n",
            "ready\nat 6\nlog 1 of 1\n0 write 0 version 0 readers 0\nat 5\n\
version 0 left 0 readers - writer 0\n\
words 00000000 00000000 00000000 00000000 00000000 00000000 00000000 00000000\n",
        ),
    ),
    (REFUSED, FIRST_PROFILE, ("pos\n", "trace refused 4\n")),
    // There the call is unknown.
    (
        ENTERED,
        FIRST_PROFILE,
        ("pos\n", "thread 0 disagrees event 0 step 2\n"),
    ),
    // A trace says that the thread was refused, and that it ended with 1.
    (
        REFUSED,
        (25, &[1], 26),
        ("pos\n", "thread 0 disagrees event 1 step 4\n"),
    ),
];

// The guest with such a trace.
fn files_of(alloc: Global, trace: &[u8], patch: Patch) -> Result<Files, Fail> {
    Ok(Files {
        image: image_bytes(alloc, TRYING)?,
        trace: patched(alloc, trace, patch)?,
    })
}

fn assert_answered<R: AllocGlobal + Threads + Clock + Sync + Abort>(
    rt: &R,
    tried: Tried,
) -> Result<(), Fail> {
    let (trace, patch, (lines, answers)) = tried;
    let files = files_of(rt.alloc(), trace, patch)?;
    assert!(rt;
        is_answered(rt, &files, lines.as_bytes(), answers.as_bytes()),
        "{answers}"
    );
    Ok(())
}

#[test]
fn tries_are_answered_as_they_were_logged(rt: HostRuntime) -> Result<(), Fail> {
    for &tried in &TRIED {
        assert_answered(&rt, tried)?;
    }
    Ok(())
}
