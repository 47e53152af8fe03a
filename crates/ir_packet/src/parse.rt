//! What a packet asks: a row for each of the bytes that packets begin with.

ghost use Rattle.std.specs.Prelude.{◌≡◌, ◌≤◌, ◌+◌, ◌++◌, length, vec_len, vec_capacity, IfOk};
ghost use Rattle.ir_packet.specs.Requests as requests;
ghost use Rattle.ir_packet.specs.Requests.{break_conditions, console_line};
ghost use Rattle.ir_packet.specs.declared.request.Request.TheVariants.{Description, Threads};

use crate::arguments::{
    actions, after_name, behind, console, cut, one, plain, register, restart, thread, two,
};
use crate::condition::{Condition, are_conditions, conditions_of};
use crate::number::put_bytes;
use crate::request::{Motion, Mover, Request};
use std::alloc::{AllocError, Global};

// What gdb asks of the target as a whole.
fn asked_queries(payload: &[u8]) -> Option<Request>
    ensures { result ≡ requests.asked_queries payload.now }
{
    if let Some(_) = after_name(b"qSupported", payload) {
        Some(Request::Supported)
    } else if let Some(rest) = after_name(b"QStartNoAckMode", payload) {
        Some(plain(Request::NoAcknowledgements, rest))
    } else if let Some(_) = after_name(b"qAttached", payload) {
        Some(Request::Attached)
    } else if let Some(rest) = after_name(b"qOffsets", payload) {
        Some(plain(Request::Offsets, rest))
    } else if let Some(rest) = after_name(b"qSymbol::", payload) {
        Some(plain(Request::Symbols, rest))
    } else {
        None
    }
}

// A piece of the target's description.
fn description(rest: &[u8]) -> Request
    ensures { result ≡ requests.two_with_comma Description rest.now }
{
    two(rest).map_or(
        Request::Malformed,
        |(from, most)| Request::Description(from, most),
    )
}

// A piece of the list of threads.
fn threads(rest: &[u8]) -> Request
    ensures { result ≡ requests.two_with_comma Threads rest.now }
{
    two(rest).map_or(
        Request::Malformed,
        |(from, most)| Request::Threads(from, most),
    )
}

// Texts that gdb reads piece by piece.
fn asked_texts(payload: &[u8]) -> Option<Request>
    ensures { result ≡ requests.asked_texts payload.now }
{
    if let Some(rest) = after_name(b"qXfer:features:read:target.xml:", payload) {
        Some(description(rest))
    } else if let Some(rest) = after_name(b"qXfer:threads:read::", payload) {
        Some(threads(rest))
    } else {
        None
    }
}

// Runs of the program from a kept cut on.
#[tactic(auto, unfolding(crate::specs::Requests::asked_restarts))]
fn asked_restarts(payload: &[u8]) -> Option<Request>
    ensures { result ≡ requests.asked_restarts payload.now }
{
    if let Some(rest) = after_name(b"!", payload) {
        Some(plain(Request::Extended, rest))
    } else if let Some(rest) = after_name(b"vRun;", payload) {
        Some(restart(rest))
    } else {
        after_name(b"vKill", payload).map(|_| Request::EndProcess)
    }
}

// A session's lines, and moves with their threads.
#[tactic(auto, unfolding(crate::specs::Requests::asked_commands))]
fn asked_commands(payload: &[u8]) -> Option<Request>
    ensures { result ≡ requests.asked_commands payload.now }
{
    if let Some(rest) = after_name(b"qRcmd,", payload) {
        Some(console(rest))
    } else if let Some(rest) = after_name(b"vCont?", payload) {
        Some(plain(Request::Motions, rest))
    } else {
        Some(actions(after_name(b"vCont;", payload)?))
    }
}

// Packets with a name.
#[tactic(auto, unfolding(crate::specs::Requests::asked_named))]
fn asked_named(payload: &[u8]) -> Option<Request>
    ensures { result ≡ requests.asked_named payload.now }
{
    if let Some(request) = asked_queries(payload) {
        return Some(request);
    }
    if let Some(request) = asked_texts(payload) {
        return Some(request);
    }
    if let Some(request) = asked_restarts(payload) {
        return Some(request);
    }
    asked_commands(payload)
}

// A breakpoint, by the address and the kind and what is behind them.
#[tactic(auto, unfolding(crate::specs::Requests::break_request))]
fn breakpoint(hardware: bool, rest: &[u8]) -> Request
    ensures { result ≡ requests.break_request hardware rest.now }
{
    let (place, behind) = cut(b';', rest);
    match behind {
        [] => two(place).map_or(
            Request::Malformed,
            |(address, _)| Request::SetBreak(address, hardware),
        ),
        [_, text @ ..] if are_conditions(text.len(), text) => two(place).map_or(
            Request::Malformed,
            |(address, _)| Request::SetBreakIf(address, hardware),
        ),
        _ => Request::Malformed,
    }
}

// Breakpoints and watches.
#[tactic(auto, unfolding(crate::specs::Requests::asked_points))]
fn asked_points(payload: &[u8]) -> Option<Request>
    ensures { result ≡ requests.asked_points payload.now }
{
    if let Some(rest) = after_name(b"Z0,", payload) {
        Some(breakpoint(false, rest))
    } else if let Some(rest) = after_name(b"Z1,", payload) {
        Some(breakpoint(true, rest))
    } else if let Some(rest) = after_name(b"Z2,", payload) {
        Some(two(rest).map_or(
            Request::Malformed,
            |(address, size)| Request::SetWatch(address, size),
        ))
    } else if let Some(rest) = after_name(b"z0,", payload) {
        Some(two(rest).map_or(
            Request::Malformed,
            |(address, _)| Request::ClearBreak(address, false),
        ))
    } else if let Some(rest) = after_name(b"z1,", payload) {
        Some(two(rest).map_or(
            Request::Malformed,
            |(address, _)| Request::ClearBreak(address, true),
        ))
    } else {
        let rest = after_name(b"z2,", payload)?;
        Some(two(rest).map_or(
            Request::Malformed,
            |(address, size)| Request::ClearWatch(address, size),
        ))
    }
}

// Packets of a letter or two.
#[tactic(auto, unfolding(crate::specs::Requests::asked_letters))]
fn asked_letters(payload: &[u8]) -> Option<Request>
    ensures { result ≡ requests.asked_letters payload.now }
{
    if let Some(rest) = after_name(b"?", payload) {
        Some(plain(Request::Reason, rest))
    } else if let Some(rest) = after_name(b"Hg", payload) {
        Some(thread(rest).map_or(Request::Malformed, Request::General))
    } else if let Some(rest) = after_name(b"Hc", payload) {
        Some(thread(rest).map_or(Request::Malformed, Request::Choose))
    } else if let Some(rest) = after_name(b"T", payload) {
        Some(one(rest).map_or(Request::Malformed, Request::Alive))
    } else if let Some(rest) = after_name(b"g", payload) {
        Some(plain(Request::Registers, rest))
    } else if let Some(rest) = after_name(b"p", payload) {
        Some(one(rest).map_or(Request::Malformed, register))
    } else if let Some(rest) = after_name(b"m", payload) {
        Some(two(rest).map_or(
            Request::Malformed,
            |(address, size)| Request::Memory(address, size),
        ))
    } else {
        asked_ends(payload)
    }
}

// Packets of a letter or two that have no argument, or none that counts.
#[tactic(auto, unfolding(crate::specs::Requests::asked_ends))]
fn asked_ends(payload: &[u8]) -> Option<Request>
    ensures { result ≡ requests.asked_ends payload.now }
{
    if after_name(b"G", payload).is_some() {
        Some(Request::Change)
    } else if after_name(b"P", payload).is_some() {
        Some(Request::Change)
    } else if after_name(b"M", payload).is_some() {
        Some(Request::Change)
    } else if let Some(rest) = after_name(b"s", payload) {
        Some(plain(Request::Move(Motion::Step, Mover::Chosen), rest))
    } else if let Some(rest) = after_name(b"c", payload) {
        Some(plain(Request::Move(Motion::Continue, Mover::Chosen), rest))
    } else if let Some(rest) = after_name(b"bs", payload) {
        Some(plain(Request::Move(Motion::StepBack, Mover::Chosen), rest))
    } else if let Some(rest) = after_name(b"bc", payload) {
        Some(plain(Request::Move(Motion::ContinueBack, Mover::Chosen), rest))
    } else if after_name(b"D", payload).is_some() {
        Some(Request::Detach)
    } else {
        after_name(b"k", payload).map(|_| Request::Kill)
    }
}

/// What the payload of a packet asks.
#[tactic(auto, unfolding(crate::specs::Requests::request_of))]
pub fn request_of(payload: &[u8]) -> Request
    ensures { result ≡ requests.request_of payload.now }
{
    if let Some(request) = asked_named(payload) {
        return request;
    }
    if let Some(request) = asked_points(payload) {
        return request;
    }
    asked_letters(payload).unwrap_or(Request::Unknown)
}

/// Puts the line of a `qRcmd` packet at the end.
#[tactic(auto, unfolding(crate::specs::Requests::console_line))]
pub fn put_line(out: &mut Vec<u8>, payload: &[u8])
    requires { vec_len out.old + length payload.now ≤ vec_capacity out.old }
    ensures line { out.new.items ≡ out.old.items ++ console_line payload.now }
    ensures capacity { vec_capacity out.new ≡ vec_capacity out.old }
{
    if let Some(digits) = after_name(b"qRcmd,", payload) {
        put_bytes(out, digits);
    }
}

/// The conditions of a `Z0` or `Z1` packet; none if it has none.
///
/// # Errors
/// Out of memory.
#[tactic(auto, unfolding(crate::specs::Requests::break_conditions))]
pub fn break_conditions(alloc: Global, payload: &[u8]) -> Result<Vec<Condition>, AllocError>
    ensures { IfOk result (λ v. v.items ≡ break_conditions payload.now) }
{
    conditions_of(alloc, behind(b';', payload))
}
