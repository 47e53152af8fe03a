//! The reader of traces.

ghost use Rattle.std.specs.Prelude.{◌≡◌, List, ℕ, IfOk, Ok};
ghost use Rattle.ir_trace.specs.Recorded.{Recorded, profile_at, header_at, end_at, thread_part_at, recorded_at};
ghost use Rattle.ir_trace.specs.Bounds.{IsRecorded};
ghost use Rattle.ir_trace.specs.Encoding.{encoding};
ghost use Rattle.ir_bytes.specs.Reading.{fields_at};
ghost use Rattle.ir_trace.specs.Results.{YieldsTrace};

use crate::event_reader::events;
use crate::header::Header;
use crate::layout::{MAGIC_ONE, MAGIC_TWO};
use crate::thread_trace::ThreadTrace;
use crate::trace::Trace;
use crate::trace_err::TraceErr;
use ir_bytes::{byte_within, double, double_within, fixed_half, word, word_within};
use ir_thread::{End, MOST_BUDGET, MOST_EVENTS, Profile};
use std::alloc::Global;

#[tactic(auto, unfolding(crate::specs::Recorded::profile_at, ir_bytes::specs::Reading::field_at))]
fn profile(bytes: &[u8]) -> Result<(Profile, &[u8]), TraceErr>
    ensures { YieldsTrace (λ x. (x.0, x.1.now)) result (profile_at bytes.now) }
{
    match word(bytes, TraceErr::Short)? {
        (MAGIC_ONE, rest) => Ok((Profile::One, rest)),
        (MAGIC_TWO, rest) => Ok((Profile::Two, rest)),
        _ => Err(TraceErr::Magic),
    }
}

#[tactic(auto, unfolding(crate::specs::Recorded::header_at))]
fn header(bytes: &[u8]) -> Result<(Header, &[u8]), TraceErr>
    ensures { YieldsTrace (λ x. (x.0, x.1.now)) result (header_at bytes.now) }
{
    let (profile, rest) = profile(bytes)?;
    let most = profile.largest().limits();
    let (threads, rest) = byte_within(1, most.threads, rest, TraceErr::Short, TraceErr::Count)?;
    let (objects, rest) = byte_within(0, most.objects, rest, TraceErr::Short, TraceErr::Count)?;
    let rest = fixed_half(0, rest, TraceErr::Short, TraceErr::Reserved)?;
    let (budget, rest) = double_within(MOST_BUDGET, rest, TraceErr::Short, TraceErr::Count)?;
    Ok((
        Header {
            profile,
            threads,
            objects,
            budget,
        },
        rest,
    ))
}

#[tactic(auto, unfolding(crate::specs::Recorded::end_at))]
fn end(bytes: &[u8]) -> Result<(End, &[u8]), TraceErr>
    ensures { YieldsTrace (λ x. (x.0, x.1.now)) result (end_at bytes.now) }
{
    let (number, rest) = byte_within(1, 14, bytes, TraceErr::Short, TraceErr::Range)?;
    let (code, rest) = word(rest, TraceErr::Short)?;
    match End::from_parts(number, code) {
        Some(end) => Ok((end, rest)),
        None => Err(TraceErr::Range),
    }
}

#[tactic(auto, unfolding(crate::specs::Recorded::thread_part_at))]
fn thread(
    alloc: Global,
    profile: Profile,
    objects: u8,
    bytes: &[u8],
) -> Result<(ThreadTrace, &[u8]), TraceErr>
    ensures { YieldsTrace (λ x. (x.0, x.1.now)) result (thread_part_at profile objects bytes.now) }
{
    let (steps, rest) = double(bytes, TraceErr::Short)?;
    let (end, rest) = end(rest)?;
    let (count, rest) = word_within(MOST_EVENTS, rest, TraceErr::Short, TraceErr::Count)?;
    let (log, rest) = events(alloc, profile, objects, count, rest)?;
    Ok((ThreadTrace::new(steps, end, log), rest))
}

fn threads(
    alloc: Global,
    profile: Profile,
    objects: u8,
    count: u8,
    bytes: &[u8],
) -> Result<(Vec<ThreadTrace>, &[u8]), TraceErr>
    ensures { YieldsTrace (λ x. (x.0.items, x.1.now)) result (fields_at (thread_part_at profile objects) count bytes.now) }
{
    let mut threads = Vec::new(alloc);
    let mut rest = bytes;
    for _ in 0..count {
        let (one, after) = thread(alloc, profile, objects, rest)?;
        threads.push(one)?;
        rest = after;
    }
    Ok((threads, rest))
}

#[tactic(auto, unfolding(crate::specs::Recorded::recorded_at))]
fn trace(alloc: Global, bytes: &[u8]) -> Result<Trace, TraceErr>
    ensures found { IfOk result (λ trace. IsRecorded trace × (bytes.now ≡ encoding trace)) }
    ensures exact { YieldsTrace (λ trace. trace) result (recorded_at bytes.now) }
{
    let (header, rest) = header(bytes)?;
    let (threads, rest) = threads(alloc, header.profile, header.objects, header.threads, rest)?;
    if !rest.is_empty() {
        return Err(TraceErr::Trailing);
    }
    Ok(Trace::new(header.objects, header.budget, threads, header.profile))
}

/// The trace that the bytes encode, all of the bytes; the first four, `IRT1` or `IRT2`, say its profile. Numbers are little-endian, and
/// room is taken only for events whose bytes are there.
///
/// # Errors
/// The first fault from the left, each field being read whole and then tested; or out of memory.
pub fn read_trace(alloc: Global, bytes: &[u8]) -> Result<Trace, TraceErr>
    // What is read was recorded within the limits, and is encoded so.
    ensures found { IfOk result (λ trace. IsRecorded trace × (bytes.now ≡ encoding trace)) }
    // What is encoded so is read, unless memory runs out.
    ensures only { (r : Recorded) → IsRecorded r → bytes.now ≡ encoding r → YieldsTrace (λ trace. trace) result (Ok r) }
    // Which fault it is.
    ensures exact { YieldsTrace (λ trace. trace) result (recorded_at bytes.now) }
{
    trace(alloc, bytes)
}
