//! Traces of a few bytes, and of as many as there can be, read and written.

use ir_log::Event;
use ir_runs::EnvKind;
use ir_thread::End;
use ir_trace::{Trace, TraceErr, read_trace, write_trace};
use std::alloc::{AllocError, Global};
use std::test::Fail;

// One thread that ended with code 144 after six steps, without objects or events.
const ONE_THREAD: [u8; 33] = [
    0x49, 0x52, 0x54, 0x31, 1, 0, 0, 0, 0xe8, 0x03, 0, 0, 0, 0, 0, 0, 6, 0, 0, 0, 0, 0, 0, 0, 1,
    0x90, 0, 0, 0, 0, 0, 0, 0,
];

// Two threads that wrote one object, the first thread second.
const TWO_WRITERS: [u8; 70] = [
    0x49, 0x52, 0x54, 0x31, 2, 1, 0, 0, 0xe8, 0x03, 0, 0, 0, 0, 0, 0, 0x12, 0, 0, 0, 0, 0, 0, 0, 1,
    0, 0, 0, 0, 1, 0, 0, 0, 5, 0, 0, 0, 0, 0, 0, 0, 0, 0, 0x12, 0, 0, 0, 0, 0, 0, 0, 1, 0, 0, 0, 0,
    1, 0, 0, 0, 5, 0, 1, 0, 0, 0, 0, 0, 0, 0,
];

// One thread that read one object, and then wrote it.
const READ_THEN_WRITE: [u8; 49] = [
    0x49, 0x52, 0x54, 0x31, 1, 1, 0, 0, 0xe8, 0x03, 0, 0, 0, 0, 0, 0, 0x0b, 0, 0, 0, 0, 0, 0, 0, 1,
    0, 0, 0, 0, 2, 0, 0, 0, 4, 0, 0, 0, 0, 0, 5, 0, 0, 0, 0, 0, 1, 0, 0, 0,
];

// One thread with an answer of each kind, of which the last two are inputs.
const ANSWERS: [u8; 53] = [
    0x49, 0x52, 0x54, 0x31, 1, 16, 0, 0, 0x00, 0x10, 0xa5, 0xd4, 0xe8, 0, 0, 0, 7, 0, 0, 0, 0, 0,
    0, 0x80, 14, 0, 0, 0, 0, 4, 0, 0, 0, 1, 1, 2, 3, 4, 2, 5, 6, 7, 8, 3, 0xff, 0, 0, 0, 3, 0xff,
    0xff, 0xff, 0xff,
];

// The number of the refusal, if the bytes are refused.
pub fn refusal(alloc: Global, bytes: &[u8]) -> Option<u8> {
    match read_trace(alloc, bytes) {
        Ok(_) => None,
        Err(error) => error.number(),
    }
}

// The bytes with another byte at a place.
fn changed(alloc: Global, bytes: &[u8], place: usize, byte: u8) -> Result<Vec<u8>, AllocError> {
    let mut changed = Vec::new(alloc);
    changed.extend_from_slice(bytes)?;
    if place < changed.len() {
        changed[place] = byte;
    }
    Ok(changed)
}

// The first `length` bytes, or all if there are fewer.
fn prefix(bytes: &[u8], length: usize) -> &[u8] {
    match bytes.split_at_checked(length) {
        Some((prefix, _)) => prefix,
        None => bytes,
    }
}

// Whether the bytes are read, and written again as they were.
fn comes_again(alloc: Global, bytes: &[u8]) -> Result<bool, Fail> {
    let trace = read_trace(alloc, bytes)?;
    Ok(write_trace(alloc, &trace)?.as_slice() == bytes)
}

// The events of a thread.
fn events(trace: &Trace, thread: usize) -> &[Event] {
    match trace.threads().get(thread) {
        Some(thread) => thread.log().events(),
        None => &[],
    }
}

const TRACES: [&[u8]; 4] = [&ONE_THREAD, &TWO_WRITERS, &READ_THEN_WRITE, &ANSWERS];

#[test]
fn traces_are_written_as_they_were_read(rt: HostRuntime) -> Result<(), Fail> {
    for &bytes in &TRACES {
        assert!(rt; comes_again(rt.alloc(), bytes)?);
    }
    Ok(())
}

// The budget and the numbers of objects and threads.
fn header(trace: &Trace) -> (u64, u8, usize) {
    (trace.budget(), trace.objects(), trace.threads().len())
}

// The steps of a thread, its end and the room of its log.
fn told(trace: &Trace, thread: usize) -> Option<(u64, End, usize)> {
    let thread = trace.threads().get(thread)?;
    Some((thread.steps(), thread.end(), thread.log().room()))
}

#[test]
fn a_thread_without_events(rt: HostRuntime) -> Result<(), Fail> {
    let trace = read_trace(rt.alloc(), &ONE_THREAD)?;
    assert_eq!(rt; header(&trace), (1000, 0, 1));
    assert_eq!(rt; told(&trace, 0), Some((6, End::Exit(144), 0)));
    Ok(())
}

// Whether the trace gives a thread of two writers as it is, with its write entry.
fn is_writer(trace: &Trace, thread: u32) -> bool {
    let written = Event::Write {
        object: 0,
        version: thread,
        readers: 0,
    };
    let place = thread as usize;
    told(trace, place) == Some((18, End::Exit(0), 1))
        && events(trace, place) == [written].as_slice()
}

#[test]
fn two_writers_in_turn(rt: HostRuntime) -> Result<(), Fail> {
    let trace = read_trace(rt.alloc(), &TWO_WRITERS)?;
    assert_eq!(rt; header(&trace), (1000, 1, 2));
    assert!(rt; is_writer(&trace, 0) && is_writer(&trace, 1));
    Ok(())
}

#[test]
fn a_reader_and_a_writer(rt: HostRuntime) -> Result<(), Fail> {
    let trace = read_trace(rt.alloc(), &READ_THEN_WRITE)?;
    let read = Event::Read {
        object: 0,
        version: 0,
    };
    let write = Event::Write {
        object: 0,
        version: 0,
        readers: 1,
    };
    assert_eq!(rt; events(&trace, 0), [read, write].as_slice());
    Ok(())
}

// The events of the trace with an answer of each kind.
const OF_EACH_KIND: [Event; 4] = [
    Event::Answer(EnvKind::Clock, 0x0403_0201),
    Event::Answer(EnvKind::Random, 0x0807_0605),
    Event::Answer(EnvKind::Input, 255),
    Event::Answer(EnvKind::Input, 0xffff_ffff),
];

#[test]
fn answers_of_each_kind(rt: HostRuntime) -> Result<(), Fail> {
    let trace = read_trace(rt.alloc(), &ANSWERS)?;
    assert_eq!(rt; header(&trace), (1_000_000_000_000, 16, 1));
    assert_eq!(rt; events(&trace, 0), OF_EACH_KIND.as_slice());
    assert_eq!(rt;
        told(&trace, 0),
        Some((0x8000_0000_0000_0007, End::LogFull, 4))
    );
    Ok(())
}

#[test]
fn a_log_has_room_for_its_events_alone(rt: HostRuntime) -> Result<(), Fail> {
    let trace = read_trace(rt.alloc(), &READ_THEN_WRITE)?;
    assert_eq!(rt; told(&trace, 0), Some((11, End::Exit(0), 2)));
    Ok(())
}

#[test]
fn a_copy_is_written_alike(rt: HostRuntime) -> Result<(), Fail> {
    let copy = read_trace(rt.alloc(), &TWO_WRITERS)?.copy()?;
    assert_eq!(rt;
        write_trace(rt.alloc(), &copy)?.as_slice(),
        TWO_WRITERS.as_slice()
    );
    Ok(())
}

// Whether the first bytes are refused as short, however many they are below all.
fn prefixes_are_short(alloc: Global, bytes: &[u8]) -> bool {
    for length in 0..bytes.len() {
        if refusal(alloc, prefix(bytes, length)) != Some(1) {
            return false;
        }
    }
    true
}

#[test]
fn every_prefix_is_short(rt: HostRuntime) {
    for &bytes in &TRACES {
        assert!(rt; prefixes_are_short(rt.alloc(), bytes));
    }
}

#[test]
fn one_byte_more_is_refused(rt: HostRuntime) -> Result<(), Fail> {
    let mut longer = Vec::new(rt.alloc());
    longer.extend_from_slice(&ONE_THREAD)?;
    longer.push(0)?;
    assert_eq!(rt; refusal(rt.alloc(), &longer), Some(7));
    Ok(())
}

// A trace, the place of another byte, the byte, and the refusal.
type Fault = (&'static [u8], usize, u8, u8);

// the magic, the numbers of threads and objects, the reserved bytes, the end, its code, the number of events
const OF_THREADS: [Fault; 12] = [
    (&ONE_THREAD, 0, 0, 2),
    (&ONE_THREAD, 4, 0, 3),
    (&ONE_THREAD, 4, 9, 3),
    (&ONE_THREAD, 5, 17, 3),
    (&ONE_THREAD, 6, 1, 5),
    (&ONE_THREAD, 7, 1, 5),
    (&ONE_THREAD, 13, 1, 3),
    (&ONE_THREAD, 24, 0, 6),
    (&ONE_THREAD, 24, 2, 6),
    (&ONE_THREAD, 24, 15, 6),
    (&ONE_THREAD, 31, 0x11, 3),
    (&ONE_THREAD, 29, 1, 1),
];

// tags, objects, an input of 256 and of 0xffffff00, a budget over its limit by one
const OF_EVENTS: [Fault; 8] = [
    (&ANSWERS, 8, 1, 3),
    (&ANSWERS, 33, 0, 4),
    (&ANSWERS, 33, 6, 4),
    (&ANSWERS, 43, 6, 4),
    (&ANSWERS, 45, 1, 6),
    (&ANSWERS, 49, 0, 6),
    (&READ_THEN_WRITE, 34, 1, 3),
    (&READ_THEN_WRITE, 40, 1, 3),
];

#[test]
fn the_fault_is_named(rt: HostRuntime) -> Result<(), Fail> {
    for table in [OF_THREADS.as_slice(), OF_EVENTS.as_slice()] {
        for (bytes, place, byte, want) in table {
            let bytes = changed(rt.alloc(), bytes, *place, *byte)?;
            assert_eq!(rt; refusal(rt.alloc(), &bytes), Some(*want), "at {place}");
        }
    }
    Ok(())
}

// A trace, two places with another byte each, how many bytes there are, and the refusal.
type Faults = (&'static [u8], [(usize, u8); 2], usize, u8);

const FAULTS: [Faults; 5] = [
    // an object that there isn't, before its version is there
    (&READ_THEN_WRITE, [(34, 1), (34, 1)], 35, 3),
    // an end that there isn't, before its code is there
    (&READ_THEN_WRITE, [(24, 15), (24, 15)], 25, 6),
    // reserved bytes, before a budget over its limit
    (&READ_THEN_WRITE, [(6, 1), (14, 1)], 49, 5),
    // 1,048,576 events without their bytes, and one more
    (&ONE_THREAD, [(31, 0x10), (31, 0x10)], 33, 1),
    (&ONE_THREAD, [(31, 0x10), (29, 1)], 33, 3),
];

// The refusal of the first `length` bytes after two changes.
fn refusal_of_two(
    alloc: Global,
    bytes: &[u8],
    [first, second]: [(usize, u8); 2],
    length: usize,
) -> Result<Option<u8>, AllocError> {
    let once = changed(alloc, bytes, first.0, first.1)?;
    let twice = changed(alloc, &once, second.0, second.1)?;
    Ok(refusal(alloc, prefix(&twice, length)))
}

#[test]
fn the_first_fault_is_named(rt: HostRuntime) -> Result<(), Fail> {
    for &(bytes, places, length, want) in &FAULTS {
        let refused = refusal_of_two(rt.alloc(), bytes, places, length)?;
        assert_eq!(rt; refused, Some(want), "of {length}");
    }
    Ok(())
}

#[test]
fn out_of_memory_has_no_number(rt: HostRuntime) {
    assert_eq!(rt; TraceErr::NoMem.number(), None);
}

// Eight threads, 16 objects and a budget of 10^12; the first thread logged 1,048,576 events, and each took as many steps as can be said.
fn largest(alloc: Global) -> Result<Vec<u8>, AllocError> {
    let mut bytes = Vec::new(alloc);
    bytes.extend_from_slice(&[0x49, 0x52, 0x54, 0x31, 8, 16, 0, 0])?;
    bytes.extend_from_slice(&[0x00, 0x10, 0xa5, 0xd4, 0xe8, 0, 0, 0])?;
    bytes.extend_from_slice(&[0xff; 8])?;
    bytes.extend_from_slice(&[1, 0xff, 0xff, 0xff, 0xff, 0, 0, 0x10, 0])?;
    for _ in 0..1_048_576 {
        bytes.extend_from_slice(&[5, 15, 0xff, 0xff, 0xff, 0xff, 0xfe, 0xff, 0xff, 0xff])?;
    }
    for _ in 0..7 {
        bytes.extend_from_slice(&[0xff; 8])?;
        bytes.extend_from_slice(&[14, 0, 0, 0, 0, 0, 0, 0, 0])?;
    }
    Ok(bytes)
}

#[test]
fn the_largest_counts_are_read(rt: HostRuntime) -> Result<(), Fail> {
    let trace = read_trace(rt.alloc(), &largest(rt.alloc())?)?;
    assert_eq!(rt; header(&trace), (1_000_000_000_000, 16, 8));
    for thread in trace.threads() {
        assert_eq!(rt; thread.steps(), 0xffff_ffff_ffff_ffff);
    }
    Ok(())
}

#[test]
fn the_most_events_are_read(rt: HostRuntime) -> Result<(), Fail> {
    let trace = read_trace(rt.alloc(), &largest(rt.alloc())?)?;
    let last = Event::Write {
        object: 15,
        version: 0xffff_ffff,
        readers: 0xffff_fffe,
    };
    assert_eq!(rt; events(&trace, 0).len(), 1_048_576);
    assert_eq!(rt; events(&trace, 0).last(), Some(&last));
    Ok(())
}

#[test]
fn the_largest_counts_are_written(rt: HostRuntime) -> Result<(), Fail> {
    assert!(rt; comes_again(rt.alloc(), &largest(rt.alloc())?)?);
    Ok(())
}

#[test]
fn no_byte_follows_the_largest(rt: HostRuntime) -> Result<(), Fail> {
    let mut bytes = largest(rt.alloc())?;
    bytes.push(0)?;
    assert_eq!(rt; refusal(rt.alloc(), &bytes), Some(7));
    Ok(())
}

// Holds whichever allocation is refused.
#[test]
fn a_refused_allocation_is_out_of_memory(rt: HostRuntime) {
    match read_trace(rt.alloc(), &TWO_WRITERS) {
        Ok(trace) => assert_eq!(rt; trace.threads().len(), 2),
        Err(error) => assert!(rt; matches!(error, TraceErr::NoMem)),
    }
}
