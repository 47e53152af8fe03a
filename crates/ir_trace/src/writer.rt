//! The writer of traces.

ghost use Rattle.std.specs.Prelude.{◌≡◌, ◌≤◌, ◌*◌, ◌+◌, ◌∷◌, [], ◌++◌, length, IfOk, OnOk};
ghost use Rattle.std.specs.List.{flat_map};
ghost use Rattle.byteorder.specs.Endian.{little_bytes};
ghost use Rattle.ir_image.specs.Guest.{most_threads};
ghost use Rattle.ir_thread.specs.State.{most_events};
ghost use Rattle.ir_trace.specs.Encoding.{header_encoding, kind_tag, event_encoding, end_encoding, thread_encoding, encoding};
ghost use Rattle.ir_trace.specs.Recorded.{trace_magic};

use crate::header::Header;
use crate::layout::{
    ANSWER_LENGTH, HEADER_LENGTH, READ_LENGTH, THREAD_LENGTH, TRY_LENGTH, WRITE_LENGTH,
};
use crate::thread_trace::ThreadTrace;
use crate::trace::Trace;
use byteorder::{ByteOrder, LittleEndian};
use ir_log::Event;
use ir_runs::EnvKind;
use ir_thread::{End, Profile};
use std::alloc::{AllocError, Global};

fn put_word(out: &mut Vec<u8>, word: u32) -> Result<(), AllocError>
    ensures { OnOk result (out.new.items ≡ out.old.items ++ little_bytes 4 word) }
{
    let mut bytes = [0; 4];
    LittleEndian::write_u32(&mut bytes, word);
    out.extend_from_slice(&bytes)
}

fn put_double(out: &mut Vec<u8>, double: u64) -> Result<(), AllocError>
    ensures { OnOk result (out.new.items ≡ out.old.items ++ little_bytes 8 double) }
{
    let mut bytes = [0; 8];
    LittleEndian::write_u64(&mut bytes, double);
    out.extend_from_slice(&bytes)
}

fn magic_bytes(profile: Profile) -> [u8; 4]
    ensures { result ≡ trace_magic profile }
{
    match profile {
        Profile::One => *b"IRT1",
        Profile::Two => *b"IRT2",
    }
}

#[tactic(auto, unfolding(crate::specs::Encoding::header_encoding))]
fn put_header(out: &mut Vec<u8>, header: Header) -> Result<(), AllocError>
    ensures { OnOk result (out.new.items ≡ out.old.items ++ header_encoding header) }
{
    out.extend_from_slice(&magic_bytes(header.profile))?;
    out.extend_from_slice(&[header.threads, header.objects, 0, 0])?;
    put_double(out, header.budget)
}

fn tag(kind: EnvKind) -> u8
    ensures { result ≡ kind_tag kind }
{
    match kind {
        EnvKind::Clock => 1,
        EnvKind::Random => 2,
        EnvKind::Input => 3,
    }
}

#[tactic(auto, unfolding(crate::specs::Encoding::event_encoding))]
fn put_event(out: &mut Vec<u8>, event: Event) -> Result<(), AllocError>
    ensures { OnOk result (out.new.items ≡ out.old.items ++ event_encoding event) }
{
    match event {
        Event::Answer(kind, value) => {
            out.push(tag(kind))?;
            put_word(out, value)
        }
        Event::Read { object, version } => {
            let [a, b, c, d] = version.to_le_bytes();
            out.extend_from_slice(&[4, object, a, b, c, d])
        }
        Event::Write {
            object,
            version,
            readers,
        } => {
            let [a, b, c, d] = version.to_le_bytes();
            let [e, f, g, h] = readers.to_le_bytes();
            out.extend_from_slice(&[5, object, a, b, c, d, e, f, g, h])
        }
        Event::Try { object } => out.extend_from_slice(&[6, object]),
    }
}

fn put_events(out: &mut Vec<u8>, events: &[Event]) -> Result<(), AllocError>
    ensures { OnOk result (out.new.items ≡ out.old.items ++ flat_map event_encoding events.now) }
{
    for event in events {
        put_event(out, *event)?;
    }
    Ok(())
}

#[tactic(auto, unfolding(crate::specs::Encoding::end_encoding))]
fn put_end(out: &mut Vec<u8>, end: End) -> Result<(), AllocError>
    ensures { OnOk result (out.new.items ≡ out.old.items ++ end_encoding end) }
{
    out.push(end.number())?;
    put_word(out, end.code())
}

fn put_thread(out: &mut Vec<u8>, thread: &ThreadTrace) -> Result<(), AllocError>
    ensures { OnOk result (out.new.items ≡ out.old.items ++ thread_encoding thread.now) }
{
    let events = thread.log().events();
    put_double(out, thread.steps())?;
    put_end(out, thread.end())?;
    put_word(out, events.len() as u32)?;
    put_events(out, events)?;
    Ok(())
}

fn put_threads(out: &mut Vec<u8>, threads: &[ThreadTrace]) -> Result<(), AllocError>
    ensures { OnOk result (out.new.items ≡ out.old.items ++ flat_map thread_encoding threads.now) }
{
    for thread in threads {
        put_thread(out, thread)?;
    }
    Ok(())
}

// How many bytes an event has.
fn event_length(event: Event) -> usize
    ensures { result ≤ 10 }
{
    match event {
        Event::Answer(..) => ANSWER_LENGTH,
        Event::Read { .. } => READ_LENGTH,
        Event::Write { .. } => WRITE_LENGTH,
        Event::Try { .. } => TRY_LENGTH,
    }
}

// How many bytes a thread has.
fn thread_length(thread: &ThreadTrace) -> usize
    ensures { result ≤ 17 + 10 * most_events }
{
    let mut length = THREAD_LENGTH;
    for event in thread.log().events() {
        length += event_length(*event);
    }
    length
}

// How many bytes a trace of these threads has.
fn written_length(threads: &[ThreadTrace]) -> usize
    requires { length threads.now ≤ most_threads }
{
    let mut length = HEADER_LENGTH;
    for thread in threads {
        length += thread_length(thread);
    }
    length
}

/// The one encoding of the trace.
///
/// # Errors
/// Out of memory.
pub fn write_trace(alloc: Global, trace: &Trace) -> Result<Vec<u8>, AllocError>
    ensures { IfOk result (λ v. v.items ≡ encoding trace.now) }
{
    let threads = trace.threads();
    let mut out = Vec::with_capacity(alloc, written_length(threads))?;
    put_header(
        &mut out,
        Header {
            profile: trace.profile(),
            threads: threads.len() as u8,
            objects: trace.objects(),
            budget: trace.budget(),
        },
    )?;
    put_threads(&mut out, threads)?;
    Ok(out)
}
