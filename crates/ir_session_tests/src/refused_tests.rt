//! Images and traces in which some bytes are replaced by others.

use crate::sessions::{Files, answered, ended_by, files_of};
use ir_tests::guests::{DOUBLED, READ_THEN_WRITE, Source, TWO_COUNTERS};
use ir_tests::patches::{Patch, patched};
use ir_tests::traces::{ENDED_BY_144, READ_AND_WRITTEN, SECOND_FIRST, TraceRow};
use std::alloc::{AllocError, Global};
use std::test::Fail;
use std::thread::Threads;
use std::time::Clock;

// What replaces an image's bytes, and the cause by which it is refused.
const IMAGES: [(Patch, &[u8]); 14] = [
    ((41, &[], 42), b"image refused 1\n"),
    ((10, &[5, 0, 0, 0], 14), b"image refused 1\n"),
    // 18 bytes, with 16,384 words of code
    (
        (6, &[0, 0x40, 0, 0, 0, 0, 0, 0, 0, 0, 1, 0], 42),
        b"image refused 1\n",
    ),
    ((0, b"J", 1), b"image refused 2\n"),
    ((4, &[0], 5), b"image refused 3\n"),
    ((4, &[9], 5), b"image refused 3\n"),
    ((5, &[17], 6), b"image refused 3\n"),
    ((6, &[1, 0x40, 0, 0], 10), b"image refused 3\n"),
    ((10, &[1, 0, 1, 0], 14), b"image refused 3\n"),
    ((14, &[0x18, 0, 1, 0], 18), b"image refused 4\n"),
    ((14, &[2, 0, 1, 0], 18), b"image refused 4\n"),
    ((14, &[0xfc, 0xff, 0, 0], 18), b"image refused 4\n"),
    ((14, &[0, 0, 1, 0x80], 18), b"image refused 4\n"),
    ((42, &[0], 42), b"image refused 5\n"),
];

// The same for the trace of a guest of one thread: at byte 24 is its end, and at 29 the number of its events.
const TRACES: [(Patch, &[u8]); 16] = [
    ((32, &[], 33), b"trace refused 1\n"),
    ((29, &[0, 0, 0x10, 0], 33), b"trace refused 1\n"),
    ((0, b"IRI1", 4), b"trace refused 2\n"),
    ((4, &[0], 5), b"trace refused 3\n"),
    (
        (8, &[1, 0x10, 0xa5, 0xd4, 0xe8, 0, 0, 0], 16),
        b"trace refused 3\n",
    ),
    ((29, &[1, 0, 0x10, 0], 33), b"trace refused 3\n"),
    ((6, &[1, 0], 8), b"trace refused 5\n"),
    ((6, &[0, 1], 8), b"trace refused 5\n"),
    ((24, &[0, 0, 0, 0, 0], 29), b"trace refused 6\n"),
    ((24, &[15, 0, 0, 0, 0], 29), b"trace refused 6\n"),
    ((24, &[2, 1, 0, 0, 0], 29), b"trace refused 6\n"),
    ((33, &[0], 33), b"trace refused 7\n"),
    (
        (24, &[14, 0, 0, 0, 0], 29),
        b"thread 0 disagrees event 0 step 5\n",
    ),
    // 18,446,744,073,709,551,615 steps
    (
        (16, &[255, 255, 255, 255, 255, 255, 255, 255], 24),
        b"thread 0 disagrees event 0 step 5\n",
    ),
    ((8, &[0, 0x10, 0xa5, 0xd4, 0xe8, 0, 0, 0], 16), b"ready\n"),
    ((33, &[], 33), b"ready\n"),
];

// The same for the trace of a guest of two threads, whose first event is at byte 33.
const EVENTS: [(Patch, &[u8]); 11] = [
    ((5, &[17], 6), b"trace refused 3\n"),
    ((4, &[9], 5), b"trace refused 3\n"),
    ((34, &[1], 35), b"trace refused 3\n"),
    ((33, &[4, 1, 0, 0, 0, 0], 43), b"trace refused 3\n"),
    ((33, &[0], 34), b"trace refused 4\n"),
    ((33, &[6], 34), b"trace refused 4\n"),
    ((33, &[6, 0], 43), b"trace refused 4\n"),
    ((33, &[7], 34), b"trace refused 4\n"),
    ((33, &[3, 0, 1, 0, 0], 43), b"trace refused 6\n"),
    ((33, &[3, 0xfe, 0xff, 0xff, 0xff], 43), b"trace refused 6\n"),
    ((34, &[], 34), b"ready\n"),
];

// Whether an image with such a patch is answered so, beside this trace.
fn is_image_refused<R: AllocGlobal + Threads + Clock + Sync>(
    rt: &R,
    files: &Files,
    trace: &[u8],
    patch: Patch,
    answer: &[u8],
) -> Result<bool, AllocError> {
    let image = patched(rt.alloc(), files.image.as_slice(), patch)?;
    Ok(is_told(rt, image.as_slice(), trace, b"regs 0\n", answer))
}

// Whether a session is answered so, and ends as it says.
fn is_told<R: AllocGlobal + Threads + Clock + Sync>(
    rt: &R,
    image: &[u8],
    trace: &[u8],
    lines: &[u8],
    answer: &[u8],
) -> bool {
    let (page, ended) = answered(rt, image, trace, lines);
    page.bytes.as_slice() == answer && ended == Ok(ended_by(answer))
}

// The image is judged first: beside a trace, or a part of one.
#[test]
fn images_are_refused_by_their_first_fault(rt: HostRuntime) -> Result<(), Fail> {
    let files = files_of(rt.alloc(), DOUBLED, ENDED_BY_144)?;
    let trace = files.trace.as_slice();
    for &(patch, answer) in &IMAGES {
        assert!(rt; is_image_refused(&rt, &files, trace, patch, answer)?);
        assert!(rt; is_image_refused(&rt, &files, &trace[..trace.len().min(32)], patch, answer)?);
    }
    Ok(())
}

// Whether a trace with such a patch is answered so.
fn is_trace_answered<R: AllocGlobal + Threads + Clock + Sync>(
    rt: &R,
    files: &Files,
    patch: Patch,
    answer: &[u8],
) -> Result<bool, AllocError> {
    let trace = patched(rt.alloc(), files.trace.as_slice(), patch)?;
    Ok(is_told(rt, files.image.as_slice(), trace.as_slice(), b"", answer))
}

#[test]
fn traces_are_refused_by_their_first_fault(rt: HostRuntime) -> Result<(), Fail> {
    let files = files_of(rt.alloc(), DOUBLED, ENDED_BY_144)?;
    for &(patch, answer) in &TRACES {
        assert!(rt; is_trace_answered(&rt, &files, patch, answer)?);
    }
    Ok(())
}

#[test]
fn events_are_refused_by_their_first_fault(rt: HostRuntime) -> Result<(), Fail> {
    let files = files_of(rt.alloc(), TWO_COUNTERS, SECOND_FIRST)?;
    for &(patch, answer) in &EVENTS {
        assert!(rt; is_trace_answered(&rt, &files, patch, answer)?);
    }
    Ok(())
}

// Whether each prefix of the image is short.
fn each_image_is_short<R: AllocGlobal + Threads + Clock + Sync>(rt: &R, files: &Files) -> bool {
    for length in 0..files.image.len() {
        let (image, _rest) = files.image.as_slice().split_at(length);
        if !is_told(rt, image, files.trace.as_slice(), b"", b"image refused 1\n") {
            return false;
        }
    }
    true
}

// The same of the trace.
fn each_trace_is_short<R: AllocGlobal + Threads + Clock + Sync>(rt: &R, files: &Files) -> bool {
    for length in 0..files.trace.len() {
        let (trace, _rest) = files.trace.as_slice().split_at(length);
        if !is_told(rt, files.image.as_slice(), trace, b"", b"trace refused 1\n") {
            return false;
        }
    }
    true
}

// Guests and their traces.
const WHOLE: [(Source, TraceRow); 3] = [
    (DOUBLED, ENDED_BY_144),
    (TWO_COUNTERS, SECOND_FIRST),
    (READ_THEN_WRITE, READ_AND_WRITTEN),
];

#[test]
fn each_prefix_is_short(rt: HostRuntime) -> Result<(), Fail> {
    for &(guest, trace) in &WHOLE {
        let files = files_of(rt.alloc(), guest, trace)?;
        assert!(rt; each_image_is_short(&rt, &files));
        assert!(rt; each_trace_is_short(&rt, &files));
    }
    Ok(())
}

// These bytes with another at the place.
fn changed(alloc: Global, bytes: &[u8], place: usize, byte: u8) -> Result<Vec<u8>, AllocError> {
    let mut all = Vec::from_slice(alloc, bytes)?;
    if let Some(changed) = all.get_mut(place) {
        *changed = byte;
    }
    Ok(all)
}

// Whether this is how a session opens, or why it doesn't.
fn is_opening(text: &[u8]) -> bool {
    text.starts_with(b"ready\n")
        || text.starts_with(b"image refused ")
        || text.starts_with(b"trace refused ")
        || text.starts_with(b"header differs ")
        || text.starts_with(b"incoherent thread ")
        || text.starts_with(b"thread ")
}

// Whether a session of them opens, or says why it doesn't, and ends as it says.
fn opens_or_tells<R: AllocGlobal + Threads + Clock + Sync>(
    rt: &R,
    image: &[u8],
    trace: &[u8],
) -> bool {
    let (page, ended) = answered(rt, image, trace, b"");
    let text = page.bytes.as_slice();
    is_opening(text) && ended == Ok(ended_by(text))
}

// What replaces a byte.
fn others(own: u8) -> [u8; 4] {
    [own ^ 1, own ^ 0x80, 0, 255]
}

// Whether that holds with others for the byte at a place of the image.
fn is_image_told<R: AllocGlobal + Threads + Clock + Sync>(
    rt: &R,
    files: &Files,
    place: usize,
    own: u8,
) -> Result<bool, Fail> {
    for byte in others(own) {
        let image = changed(rt.alloc(), files.image.as_slice(), place, byte)?;
        if !opens_or_tells(rt, image.as_slice(), files.trace.as_slice()) {
            return Ok(false);
        }
    }
    Ok(true)
}

// The same of the trace.
fn is_trace_told<R: AllocGlobal + Threads + Clock + Sync>(
    rt: &R,
    files: &Files,
    place: usize,
    own: u8,
) -> Result<bool, Fail> {
    for byte in others(own) {
        let trace = changed(rt.alloc(), files.trace.as_slice(), place, byte)?;
        if !opens_or_tells(rt, files.image.as_slice(), trace.as_slice()) {
            return Ok(false);
        }
    }
    Ok(true)
}

const CHANGED: [(Source, TraceRow); 3] = [
    (DOUBLED, ENDED_BY_144),
    (READ_THEN_WRITE, READ_AND_WRITTEN),
    (TWO_COUNTERS, SECOND_FIRST),
];

#[test]
fn each_changed_byte_of_an_image_is_answered(rt: HostRuntime) -> Result<(), Fail> {
    for &(guest, trace) in &CHANGED {
        let files = files_of(rt.alloc(), guest, trace)?;
        for (place, own) in files.image.iter().enumerate() {
            assert!(rt; is_image_told(&rt, &files, place, *own)?, "{place}");
        }
    }
    Ok(())
}

#[test]
fn each_changed_byte_of_a_trace_is_answered(rt: HostRuntime) -> Result<(), Fail> {
    for &(guest, trace) in &CHANGED {
        let files = files_of(rt.alloc(), guest, trace)?;
        for (place, own) in files.trace.iter().enumerate() {
            assert!(rt; is_trace_told(&rt, &files, place, *own)?, "{place}");
        }
    }
    Ok(())
}
