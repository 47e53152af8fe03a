//! Sessions that read no more than a limit.

use crate::line_tests::line_of;
use crate::sessions::{Files, files_of};
use crate::streams::{Bytes, ENDLESS, Page};
use ir_debug::{Ended, MOST_INPUT, SessionErr, session_up_to};
use ir_object::{Given, OpenGate};
use ir_tests::guests::DOUBLED;
use ir_tests::patches::{Patch, UNPATCHED, patched};
use ir_tests::traces::ENDED_BY_144;
use std::alloc::AllocError;
use std::test::Fail;
use std::thread::Threads;
use std::time::Clock;

// The most bytes to be read, after which no further read succeeds; the lines, what is answered, and how it ends.
const LIMITED: [(u64, &[u8], &[u8], Result<Ended, SessionErr>); 4] = [
    (
        8,
        b"pos\npos\npos\n",
        b"ready\nat 0\nat 0\n",
        Err(SessionErr::TooLong),
    ),
    (9, b"pos\nquit\n", b"ready\nat 0\nbye\n", Ok(Ended::Quit)),
    (
        10,
        b"step 0 0\nstep 0 0\n",
        b"ready\nat 0 start\n",
        Err(SessionErr::TooLong),
    ),
    (
        12,
        b"regs 9\nquit\n",
        b"ready\nrefused 3 no such thread\nbye\n",
        Ok(Ended::Quit),
    ),
];

// Whether a session that reads no more is answered so and ends so.
fn is_limited<R: AllocGlobal + Threads + Clock + Sync>(
    rt: &R,
    files: &Files,
    row: (u64, &[u8], &[u8], Result<Ended, SessionErr>),
) -> bool {
    let (limit, lines, answers, wanted) = row;
    let mut reader = Bytes::new(lines, limit);
    let mut writer = Page::new(rt.alloc(), false, ENDLESS);
    let hands = Given::new(rt, rt.alloc(), &OpenGate);
    let ended = session_up_to(
        &hands,
        limit.min(MOST_INPUT),
        files.image.as_slice(),
        files.trace.as_slice(),
        &mut reader,
        &mut writer,
    );
    writer.bytes.as_slice() == answers && ended == wanted
}

#[test]
fn no_byte_past_the_limit_is_read(rt: HostRuntime) -> Result<(), Fail> {
    let files = files_of(rt.alloc(), DOUBLED, ENDED_BY_144)?;
    for &row in &LIMITED {
        assert!(rt; is_limited(&rt, &files, row));
    }
    Ok(())
}

const AFTER_5000: &[u8] = b"ready\nrefused 7 line too long\nat 0\n";

#[test]
fn a_long_line_counts_whole_towards_the_limit(rt: HostRuntime) -> Result<(), Fail> {
    let files = files_of(rt.alloc(), DOUBLED, ENDED_BY_144)?;
    let lines = line_of(rt.alloc(), 5000, b'x', b"\npos\n")?;
    let (whole, short) = (lines.as_slice(), b"ready\n");
    assert!(rt; is_limited(&rt, &files, (5006, whole, AFTER_5000, Ok(Ended::InputEnd))));
    assert!(rt;
        is_limited(
            &rt,
            &files,
            (5005, whole, AFTER_5000, Err(SessionErr::TooLong))
        )
    );
    assert!(rt; is_limited(&rt, &files, (5000, whole, short, Err(SessionErr::TooLong))));
    Ok(())
}

// A patch of the image, one of the trace, and what a session is answered that may read 20 bytes, and how it ends.
type Told = (Patch, Patch, &'static [u8], Ended);

// Counts that the bytes don't bear, and a count of steps that no thread has.
const TOLD: [Told; 4] = [
    (
        UNPATCHED,
        (29, &[0, 0, 0x10, 0], 33),
        b"trace refused 1\n",
        Ended::TraceRefused,
    ),
    (
        (6, &[0, 0x40, 0, 0, 0, 0, 0, 0, 0, 0, 1, 0], 42),
        UNPATCHED,
        b"image refused 1\n",
        Ended::ImageRefused,
    ),
    (
        UNPATCHED,
        (16, &[255, 255, 255, 255, 255, 255, 255, 255], 24),
        b"thread 0 disagrees event 0 step 5\n",
        Ended::NotFit,
    ),
    (UNPATCHED, UNPATCHED, b"ready\nat 0\nbye\n", Ended::Quit),
];

// Whether it is answered so: no line is read unless the session is opened.
fn is_told<R: AllocGlobal + Threads + Clock + Sync>(
    rt: &R,
    files: &Files,
    row: Told,
) -> Result<bool, AllocError> {
    let (image, trace, answers, ended) = row;
    let both = Files {
        image: patched(rt.alloc(), files.image.as_slice(), image)?,
        trace: patched(rt.alloc(), files.trace.as_slice(), trace)?,
    };
    Ok(is_limited(rt, &both, (20, b"pos\nquit\n", answers, Ok(ended))))
}

#[test]
fn what_the_bytes_do_not_bear_is_told(rt: HostRuntime) -> Result<(), Fail> {
    let files = files_of(rt.alloc(), DOUBLED, ENDED_BY_144)?;
    for &row in &TOLD {
        assert!(rt; is_told(&rt, &files, row)?);
    }
    Ok(())
}
