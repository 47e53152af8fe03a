//! Pictures of traces made by hand: data, pages, events for other viewers, parts; circles, refusals, and writers that fail.

use crate::page::{ENDLESS, Page, empty_page};
use crate::traces::{CIRCLE, FOLDS, FOLDS_DATA, LOST, LOST_DATA};
use ir_past::ask_trace;
use ir_picture::{Around, Asked, Form};
use std::alloc::{AllocError, Global};

const PART: &str =
    "{\"ir_view\":1,\"steps\":false,\"objects\":1,\"profile\":1,\"around\":[1,1,1],\"threads\":[
{\"end\":1,\"code\":0,\"steps\":20,\"events\":2,\"x\":6,\"u\":4},
{\"end\":1,\"code\":0,\"steps\":20,\"events\":2,\"x\":4,\"u\":3}
],\"boxes\":[
[1,1,1,5,0,0,2,2,3,2,2,2,0]
],\"stale\":[
]}
";

const CHROME: &str = "{\"traceEvents\":[
{\"name\":\"process_name\",\"ph\":\"M\",\"pid\":1,\"tid\":0,\"args\":{\"name\":\"guest\"}},
{\"name\":\"thread_name\",\"ph\":\"M\",\"pid\":1,\"tid\":0,\"args\":{\"name\":\"thread 0\"}},
{\"name\":\"thread_sort_index\",\"ph\":\"M\",\"pid\":1,\"tid\":0,\"args\":{\"sort_index\":0}},
{\"name\":\"thread_name\",\"ph\":\"M\",\"pid\":1,\"tid\":64,\"args\":{\"name\":\"thread 1\"}},
{\"name\":\"thread_sort_index\",\"ph\":\"M\",\"pid\":1,\"tid\":64,\"args\":{\"sort_index\":64}},
{\"name\":\"end, code 0\",\"cat\":\"end\",\"ph\":\"i\",\"s\":\"t\",\"ts\":60,\"pid\":1,\"tid\":0,\"args\":{\"end\":1,\"code\":0,\"steps\":20,\"events\":2,\"x\":6,\"u\":4}},
{\"name\":\"end, code 0\",\"cat\":\"end\",\"ph\":\"i\",\"s\":\"t\",\"ts\":40,\"pid\":1,\"tid\":64,\"args\":{\"end\":1,\"code\":0,\"steps\":20,\"events\":2,\"x\":4,\"u\":3}},
{\"name\":\"read 0 version 0\",\"cat\":\"read\",\"ph\":\"X\",\"dur\":10,\"ts\":0,\"pid\":1,\"tid\":0,\"args\":{\"event\":0,\"events\":1,\"object\":0,\"version\":0}},
{\"name\":\"write 0 version 1 readers 0\",\"cat\":\"write\",\"ph\":\"X\",\"dur\":10,\"ts\":40,\"pid\":1,\"tid\":0,\
\"args\":{\"event\":1,\"events\":1,\"object\":0,\"version\":1,\"new_version\":2,\"readers\":0,\"stale\":true,\"read_at_event\":0}},
{\"name\":\"read 0 version 0\",\"cat\":\"read\",\"ph\":\"X\",\"dur\":10,\"ts\":0,\"pid\":1,\"tid\":64,\"args\":{\"event\":0,\"events\":1,\"object\":0,\"version\":0}},
{\"name\":\"write 0 version 0 readers 2\",\"cat\":\"write\",\"ph\":\"X\",\"dur\":10,\"ts\":20,\"pid\":1,\"tid\":64,\
\"args\":{\"event\":1,\"events\":1,\"object\":0,\"version\":0,\"new_version\":1,\"readers\":2}},
{\"name\":\"object 0\",\"cat\":\"sees\",\"ph\":\"s\",\"id\":0,\"ts\":29,\"pid\":1,\"tid\":64},
{\"name\":\"object 0\",\"cat\":\"sees\",\"ph\":\"f\",\"bp\":\"e\",\"id\":0,\"ts\":40,\"pid\":1,\"tid\":0}
],\"displayTimeUnit\":\"ns\",\"otherData\":{\"source\":\"ir view\"}}
";

// The status, and what was written and reported, by a writer that fails after `calls` calls.
fn view(rt: &HostRuntime, trace: &[u8], asked: Asked, calls: u64) -> (u8, Page, Page) {
    let mut out = empty_page(rt, 100_000, calls);
    let mut faults = empty_page(rt, 1000, ENDLESS);
    let status = ask_trace(rt.alloc(), trace, &asked, &mut out, &mut faults);
    (status.number(), out, faults)
}

fn whole(form: Form) -> Asked {
    Asked { form, around: None }
}

fn part(thread: u32, event: u32, span: u64) -> Asked {
    Asked {
        form: Form::Data,
        around: Some(Around {
            thread,
            event,
            span,
        }),
    }
}

// Whether a trace has this answer, and nothing is reported.
fn has(rt: &HostRuntime, trace: &[u8], asked: Asked, status: u8, text: &str) -> bool {
    let (found, out, faults) = view(rt, trace, asked, ENDLESS);
    found == status && out.bytes.as_slice() == text.as_bytes() && faults.bytes.is_empty()
}

#[test]
fn the_data_of_a_lost_update(rt: HostRuntime) {
    assert!(rt; has(&rt, &LOST, whole(Form::Data), 0, LOST_DATA));
}

#[test]
fn repeats_are_folded(rt: HostRuntime) {
    assert!(rt; has(&rt, &FOLDS, whole(Form::Data), 0, FOLDS_DATA));
}

#[test]
fn a_page_has_its_data(rt: HostRuntime) {
    let (status, out, faults) = view(&rt, &FOLDS, whole(Form::Page), ENDLESS);
    assert_eq!(rt; status, 0);
    assert!(rt; faults.bytes.is_empty());
    assert!(rt; out.bytes.starts_with(b"<!DOCTYPE html>\n"));
    assert!(rt; out.bytes.ends_with(b"</html>\n"));
    let data = FOLDS_DATA.as_bytes();
    let data = &data[..data.len() - 1];
    let found = out
        .bytes
        .windows(data.len())
        .filter(|bytes| *bytes == data)
        .count();
    assert_eq!(rt; found, 1);
}

#[test]
fn events_for_other_viewers(rt: HostRuntime) {
    assert!(rt; has(&rt, &LOST, whole(Form::Chrome), 0, CHROME));
}

// The trace of a thread that enters an object for writing 1,000 times.
fn many_writes(alloc: Global) -> Result<Vec<u8>, AllocError> {
    let mut trace = Vec::from_slice(alloc, b"IRT1\x01\x01\0\0\xe8\x03\0\0\0\0\0\0")?;
    trace.extend_from_slice(b"\x90\x01\0\0\0\0\0\0\x01\0\0\0\0\xe8\x03\0\0")?;
    for version in 0..1000u32 {
        trace.extend_from_slice(b"\x05\0")?;
        trace.extend_from_slice(&version.to_le_bytes())?;
        trace.extend_from_slice(&[0; 4])?;
    }
    Ok(trace)
}

// Of some 190 KB of events for other viewers, pieces of at most 64 KiB and a line are written; a writer that fails at the second has the first.
#[test]
fn events_for_other_viewers_are_written_in_pieces(rt: HostRuntime) {
    let Ok(trace) = many_writes(rt.alloc()) else {
        return;
    };
    let (status, whole_text, faults) = view(&rt, &trace, whole(Form::Chrome), ENDLESS);
    assert_eq!(rt; status, 0);
    assert!(rt; faults.bytes.is_empty());
    assert_eq!(rt; whole_text.calls_left, ENDLESS - 3);
    let lines = whole_text
        .bytes
        .iter()
        .filter(|byte| **byte == b'\n')
        .count();
    assert_eq!(rt; lines, 1006);
    let (status, first, _) = view(&rt, &trace, whole(Form::Chrome), 1);
    assert_eq!(rt; status, 1);
    assert!(rt; first.bytes.len() >= 65_536 && first.bytes.len() <= 65_536 + 1024);
    assert!(rt; whole_text.bytes.starts_with(&first.bytes));
}

#[test]
fn a_part_around_an_event(rt: HostRuntime) {
    assert!(rt; has(&rt, &LOST, part(1, 1, 1), 0, PART));
}

#[test]
fn an_event_that_is_not_there_is_refused(rt: HostRuntime) {
    for (asked, words) in [
        (
            part(2, 0, 9),
            b"ir: the trace has no thread of this number\n".as_slice(),
        ),
        (
            part(256, 0, 9),
            b"ir: the trace has no thread of this number\n".as_slice(),
        ),
        (
            part(1, 2, 9),
            b"ir: the thread has no event of this number\n".as_slice(),
        ),
    ] {
        let (status, out, faults) = view(&rt, &LOST, asked, ENDLESS);
        assert_eq!(rt; status, 2);
        assert!(rt; out.bytes.is_empty());
        assert_eq!(rt; faults.bytes.as_slice(), words);
    }
}

#[test]
fn a_circle_is_reported(rt: HostRuntime) {
    for form in [Form::Page, Form::Data, Form::Chrome] {
        assert!(rt; has(&rt, &CIRCLE, whole(form), 4, "circle thread 0 event 0\n"));
    }
}

#[test]
fn bytes_that_are_no_coherent_trace_are_refused(rt: HostRuntime) {
    assert!(rt; has(&rt, &LOST[..81], whole(Form::Page), 3, "trace refused 1\n"));
    let mut trace = LOST;
    trace[78] = 1;
    assert!(rt;
        has(
            &rt,
            &trace,
            whole(Form::Page),
            4,
            "incoherent thread 1 event 1 cause 3\n"
        )
    );
}

#[test]
fn a_failing_writer_is_reported(rt: HostRuntime) {
    let (status, out, faults) = view(&rt, &LOST, whole(Form::Page), 0);
    assert_eq!(rt; status, 1);
    assert!(rt; out.bytes.is_empty());
    assert_eq!(rt;
        faults.bytes.as_slice(),
        b"ir: standard output can't be written\n".as_slice()
    );
}
