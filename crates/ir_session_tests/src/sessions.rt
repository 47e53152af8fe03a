//! Sessions over bytes in memory.

use crate::streams::{Bytes, ENDLESS, Page};
use ir_debug::{Ended, SessionErr, session};
use ir_object::{Gate, Given, OpenGate};
use ir_tests::sources::image_bytes;
use ir_tests::traces::{TraceRow, trace_bytes};
use std::alloc::Global;
use std::process::Abort;
use std::test::Fail;
use std::thread::Threads;
use std::time::Clock;

/// Lines, and what is answered.
pub type Said = (&'static str, &'static str);

/// After how many calls the reader fails, and after how many the writer, which takes a byte in each, or never fails.
#[derive(Clone, Copy, Debug)]
pub struct Failing {
    pub reads: u64,
    pub writes: Option<u64>,
}

/// Neither fails.
pub const NEVER: Failing = Failing {
    reads: ENDLESS,
    writes: None,
};

/// What a session of these bytes answers, and how it ends.
pub fn answered_until<R: AllocGlobal + Threads + Clock + Sync, G: Gate + Sync>(
    rt: &R,
    image: &[u8],
    trace: &[u8],
    lines: &[u8],
    failing: Failing,
    gate: &G,
) -> (Page, Result<Ended, SessionErr>) {
    let Failing { reads, writes } = failing;
    let mut reader = Bytes::new(lines, reads);
    let mut writer = Page::new(rt.alloc(), writes.is_some(), writes.unwrap_or(ENDLESS));
    let hands = Given::new(rt, rt.alloc(), gate);
    let ended = session(&hands, image, trace, &mut reader, &mut writer);
    (writer, ended)
}

/// The same where neither fails.
pub fn answered<R: AllocGlobal + Threads + Clock + Sync>(
    rt: &R,
    image: &[u8],
    trace: &[u8],
    lines: &[u8],
) -> (Page, Result<Ended, SessionErr>) {
    answered_until(rt, image, trace, lines, NEVER, &OpenGate)
}

/// How a session ends that answers so.
pub fn ended_by(answers: &[u8]) -> Ended {
    if answers.starts_with(b"image") {
        Ended::ImageRefused
    } else if answers.starts_with(b"trace") {
        Ended::TraceRefused
    } else if !answers.starts_with(b"ready") {
        Ended::NotFit
    } else if answers.ends_with(b"bye\n") {
        Ended::Quit
    } else {
        Ended::InputEnd
    }
}

/// The bytes of a guest's image and of its trace.
#[derive(Drop)]
pub struct Files {
    pub image: Vec<u8>,
    pub trace: Vec<u8>,
}

/// Those of the guest and the trace.
pub fn files_of(alloc: Global, guest: &[&str], trace: TraceRow) -> Result<Files, Fail> {
    Ok(Files {
        image: image_bytes(alloc, guest)?,
        trace: trace_bytes(alloc, trace)?,
    })
}

/// What a session of the files answers to lines.
pub fn answer_of<R: AllocGlobal + Threads + Clock + Sync>(
    rt: &R,
    files: &Files,
    lines: &[u8],
) -> (Page, Result<Ended, SessionErr>) {
    answered(rt, files.image.as_slice(), files.trace.as_slice(), lines)
}

/// Whether a session of the files answers so to lines, and ends as it says.
pub fn is_answered<R: AllocGlobal + Threads + Clock + Sync>(
    rt: &R,
    files: &Files,
    lines: &[u8],
    answers: &[u8],
) -> bool {
    let (page, ended) = answer_of(rt, files, lines);
    page.bytes.as_slice() == answers && ended == Ok(ended_by(answers))
}

/// Asserts that sessions of the guest and the trace answer so, each to its lines.
pub fn are_answered<R: AllocGlobal + Threads + Clock + Sync + Abort>(
    rt: &R,
    guest: &[&str],
    trace: TraceRow,
    sessions: &[Said],
) -> Result<(), Fail> {
    let files = files_of(rt.alloc(), guest, trace)?;
    for (lines, answers) in sessions {
        let (page, ended) = answer_of(rt, &files, lines.as_bytes());
        assert_eq!(rt; page.bytes.as_slice(), answers.as_bytes());
        assert_eq!(rt; ended, Ok(ended_by(answers.as_bytes())));
    }
    Ok(())
}
