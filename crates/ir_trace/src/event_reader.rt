//! The reader of events.

ghost use Rattle.std.specs.Prelude.{◌≡◌, ◌≤◌, ◌+◌, length, IfOk};
ghost use Rattle.ir_bytes.specs.Reading.{field_at, fields_at};
ghost use Rattle.ir_trace.specs.declared.trace_err.TraceErr.TheVariants.{Short};
ghost use Rattle.ir_trace.specs.Recorded.{answer_at, input_at, read_at, write_at, try_at, try_by, event_by, event_reading};
ghost use Rattle.ir_trace.specs.Fields.{object_field};
ghost use Rattle.ir_trace.specs.Results.{YieldsTrace, shortest};
ghost use Rattle.ir_thread.specs.State.{most_events};

use crate::layout::{ANSWER_LENGTH, INPUT_END, TRY_LENGTH};
use crate::trace_err::TraceErr;
use ir_bytes::{byte, word};
use ir_log::{Event, Log};
use ir_runs::EnvKind;
use ir_thread::Profile;
use std::alloc::Global;

#[tactic(auto, unfolding(crate::specs::Recorded::answer_at))]
fn answer(kind: EnvKind, bytes: &[u8]) -> Result<(Event, &[u8]), TraceErr>
    ensures exact { YieldsTrace (λ x. (x.0, x.1.now)) result (answer_at kind bytes.now) }
    ensures taken { IfOk result (λ x. length x.1.now + 4 ≤ length bytes.now) }
{
    let (value, rest) = word(bytes, TraceErr::Short)?;
    Ok((Event::Answer(kind, value), rest))
}

#[tactic(auto, unfolding(crate::specs::Recorded::input_at, ir_bytes::specs::Reading::field_at))]
fn input(bytes: &[u8]) -> Result<(Event, &[u8]), TraceErr>
    ensures exact { YieldsTrace (λ x. (x.0, x.1.now)) result (input_at bytes.now) }
    ensures taken { IfOk result (λ x. length x.1.now + 4 ≤ length bytes.now) }
{
    let (value, rest) = word(bytes, TraceErr::Short)?;
    if value < 256 || value == INPUT_END {
        Ok((Event::Answer(EnvKind::Input, value), rest))
    } else {
        Err(TraceErr::Range)
    }
}

#[tactic(auto, unfolding(ir_bytes::specs::Reading::field_at))]
fn object(objects: u8, bytes: &[u8]) -> Result<(u8, &[u8]), TraceErr>
    ensures exact { YieldsTrace (λ x. (x.0, x.1.now)) result (field_at Short (object_field objects) bytes.now) }
    ensures taken { IfOk result (λ x. length x.1.now + 1 ≡ length bytes.now) }
{
    let (object, rest) = byte(bytes, TraceErr::Short)?;
    if object < objects {
        Ok((object, rest))
    } else {
        Err(TraceErr::Count)
    }
}

#[tactic(auto, unfolding(crate::specs::Recorded::read_at))]
fn read_entry(objects: u8, bytes: &[u8]) -> Result<(Event, &[u8]), TraceErr>
    ensures exact { YieldsTrace (λ x. (x.0, x.1.now)) result (read_at objects bytes.now) }
    ensures taken { IfOk result (λ x. length x.1.now + 4 ≤ length bytes.now) }
{
    let (object, rest) = object(objects, bytes)?;
    let (version, rest) = word(rest, TraceErr::Short)?;
    Ok((Event::Read { object, version }, rest))
}

#[tactic(auto, unfolding(crate::specs::Recorded::write_at))]
fn write_entry(objects: u8, bytes: &[u8]) -> Result<(Event, &[u8]), TraceErr>
    ensures exact { YieldsTrace (λ x. (x.0, x.1.now)) result (write_at objects bytes.now) }
    ensures taken { IfOk result (λ x. length x.1.now + 4 ≤ length bytes.now) }
{
    let (object, rest) = object(objects, bytes)?;
    let (version, rest) = word(rest, TraceErr::Short)?;
    let (readers, rest) = word(rest, TraceErr::Short)?;
    Ok((
        Event::Write {
            object,
            version,
            readers,
        },
        rest,
    ))
}

#[tactic(auto, unfolding(crate::specs::Recorded::try_at, crate::specs::Recorded::try_by))]
fn refused_try(profile: Profile, objects: u8, bytes: &[u8]) -> Result<(Event, &[u8]), TraceErr>
    ensures exact { YieldsTrace (λ x. (x.0, x.1.now)) result (try_by profile objects bytes.now) }
    ensures taken { IfOk result (λ x. length x.1.now + shortest profile ≤ length bytes.now + 1) }
{
    match profile {
        Profile::One => Err(TraceErr::Tag),
        Profile::Two => {
            let (object, rest) = object(objects, bytes)?;
            Ok((Event::Try { object }, rest))
        }
    }
}

#[tactic(auto, unfolding(crate::specs::Recorded::event_by))]
fn tagged(profile: Profile, tag: u8, objects: u8, bytes: &[u8]) -> Result<(Event, &[u8]), TraceErr>
    ensures exact { YieldsTrace (λ x. (x.0, x.1.now)) result (event_by profile tag objects bytes.now) }
    ensures taken { IfOk result (λ x. length x.1.now + shortest profile ≤ length bytes.now + 1) }
{
    match tag {
        1 => answer(EnvKind::Clock, bytes),
        2 => answer(EnvKind::Random, bytes),
        3 => input(bytes),
        4 => read_entry(objects, bytes),
        5 => write_entry(objects, bytes),
        6 => refused_try(profile, objects, bytes),
        _ => Err(TraceErr::Tag),
    }
}

#[tactic(auto, unfolding(crate::specs::Recorded::event_reading))]
fn event(profile: Profile, objects: u8, bytes: &[u8]) -> Result<(Event, &[u8]), TraceErr>
    ensures exact { YieldsTrace (λ x. (x.0, x.1.now)) result (event_reading profile objects bytes.now) }
    ensures taken { IfOk result (λ x. length x.1.now + shortest profile ≤ length bytes.now) }
{
    let (tag, rest) = byte(bytes, TraceErr::Short)?;
    tagged(profile, tag, objects, rest)
}

// How many bytes the shortest event of a profile has.
fn shortest_event(profile: Profile) -> usize
    ensures value { result ≡ shortest profile }
    ensures some { 2 ≤ result }
{
    match profile {
        Profile::One => ANSWER_LENGTH,
        Profile::Two => TRY_LENGTH,
    }
}

/// `count` events of a profile, each about an object below the number of objects, and the bytes after them. Room is taken for
/// no more events than the bytes may hold.
///
/// # Errors
/// The first fault from the left, or out of memory.
pub fn events(
    alloc: Global,
    profile: Profile,
    objects: u8,
    count: u32,
    bytes: &[u8],
) -> Result<(Log, &[u8]), TraceErr>
    requires { count ≤ most_events }
    ensures exact { YieldsTrace (λ x. (x.0.events, x.1.now)) result (fields_at (event_reading profile objects) count bytes.now) }
    ensures room { IfOk result (λ x. x.0.room ≡ length x.0.events) }
{
    let room = (count as usize).min(bytes.len() / shortest_event(profile));
    let mut log = Log::new(alloc, room)?;
    let mut rest = bytes;
    for _ in 0..count {
        let (one, after) = event(profile, objects, rest)?;
        log.push(one);
        rest = after;
    }
    Ok((log, rest))
}
