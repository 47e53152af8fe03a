//! The lines of all events.

ghost use Rattle.std.specs.Prelude.{◌≡◌, ◌<◌, ◌++◌, [], length, slice_get, IfOk, OnOk, Some, unwrap_or};
ghost use Rattle.std.specs.String.{string_bytes};
ghost use Rattle.ir_trace.specs.Recorded.{recorded_thread};
ghost use Rattle.ir_symbols.specs.Names.{name_text};
ghost use Rattle.ir_events.specs.Events.{ArePcs};
ghost use Rattle.ir_events.specs.Texts.{named_line, logged_at, thread_text, events_text};

use crate::line::event_line;
use crate::lists::EventPcs;
use crate::logged::Logged;
use ir_fit::Fitted;
use ir_symbols::{SymbolTable, name_text};
use std::alloc::{AllocError, Global};

// What an address is called, if it has a name.
fn name_of(alloc: Global, symbols: &SymbolTable, pc: u32) -> Result<String, AllocError>
    ensures { IfOk result (λ s. string_bytes s ≡ unwrap_or (name_text symbols.now pc) []) }
{
    match name_text(alloc, symbols, pc)? {
        Some(name) => Ok(name),
        None => Ok(String::new(alloc)),
    }
}

// Puts the line of an event at the end, with the name of its pc if it has one.
fn push_line(
    alloc: Global,
    symbols: &SymbolTable,
    logged: &Logged,
    text: &mut Vec<u8>,
) -> Result<(), AllocError>
    ensures { OnOk result (text.new.items ≡ text.old.items ++ named_line symbols.now logged.now) }
{
    let name = name_of(alloc, symbols, logged.pc)?;
    let line = event_line(alloc, logged, name.as_bytes())?;
    text.extend_from_slice(line.as_slice())
}

// An event of thread t, with its step and its pc.
#[tactic(auto, using(ir_fit::proofs::CallerLemmas::entries_count_events))]
fn logged_at(fitted: &Fitted, pcs: &EventPcs, t: usize, number: usize) -> Logged
    requires thread { t < length fitted.now.guest.entries }
    requires event { number < length (recorded_thread fitted.now.recorded t).events }
    requires pcs { ArePcs fitted.now pcs.now }
    ensures there { slice_get (recorded_thread fitted.now.recorded t).events number ≡ Some result.event }
    ensures is { result ≡ logged_at fitted.now pcs.now t number result.event }
{
    let events = fitted.trace().threads()[t].log().events();
    let steps = fitted.entries(t);
    let pcs = pcs.at(t);
    Logged {
        thread: t,
        number,
        step: steps[number],
        pc: pcs[number],
        event: events[number],
    }
}

// Puts the lines of the events of thread t at the end.
fn push_thread(
    alloc: Global,
    fitted: &Fitted,
    pcs: &EventPcs,
    symbols: &SymbolTable,
    t: usize,
    text: &mut Vec<u8>,
) -> Result<(), AllocError>
    requires thread { t < length fitted.now.guest.entries }
    requires pcs { ArePcs fitted.now pcs.now }
    ensures { OnOk result (text.new.items ≡ text.old.items ++ thread_text fitted.now pcs.now symbols.now t) }
{
    let count = fitted.trace().threads()[t].log().events().len();
    for number in 0..count {
        let logged = logged_at(fitted, pcs, t, number);
        push_line(alloc, symbols, &logged, text)?;
    }
    Ok(())
}

/// The lines of all events of a fitted trace whose pcs these are, by thread and event: `thread T event I step S pc A EVENT`, with
/// the name of A after it if it has one. What is taken grows with the events, by some 60 bytes each.
///
/// # Errors
/// Out of memory.
pub fn events_text(
    alloc: Global,
    fitted: &Fitted,
    pcs: &EventPcs,
    symbols: &SymbolTable,
) -> Result<Vec<u8>, AllocError>
    requires { ArePcs fitted.now pcs.now }
    ensures { IfOk result (λ text. text.items ≡ events_text fitted.now pcs.now symbols.now) }
{
    let mut text = Vec::new(alloc);
    for t in 0..fitted.image().entries().len() {
        push_thread(alloc, fitted, pcs, symbols, t, &mut text)?;
    }
    Ok(text)
}
