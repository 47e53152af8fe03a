//! The lines of `ir explore`.

ghost use Rattle.std.specs.Prelude.{◌≡◌, ◌++◌, IfOk, OnOk};
ghost use Rattle.std.specs.String.{string_bytes};
ghost use Rattle.ir_explore.specs.Lines.{outcome_line, outcome_thread_line, outcome_thread_text, outcome_object_line, end_pair};
ghost use Rattle.ir_explore.specs.Lines.{end_code_of, stop_words, covered_text, hang_line, outcome_found_line, counts_text, ended_text};
ghost use Rattle.ir_explore.specs.Lines.{hangs_text, clock_text, search_line};

use crate::bytes::{put_bytes, put_words};
use ir_search::{Ended, Stop};
use ir_thread::{End, Thread};
use std::alloc::{AllocError, Global};

/// The line of an outcome, with the list that spells its order.
pub fn outcome_line(
    alloc: Global,
    number: usize,
    switches: usize,
    list: &str,
) -> Result<String, AllocError>
    ensures { IfOk result (λ s. string_bytes s ≡ outcome_line number switches list.now) }
{
    format!(in alloc; "outcome {number} switches {switches} order {list}\n")
}

/// The line of the outcome that is recorded, with the list that spells its order.
pub fn found_line(
    alloc: Global,
    number: usize,
    switches: usize,
    list: &str,
) -> Result<String, AllocError>
    ensures { IfOk result (λ s. string_bytes s ≡ outcome_found_line number switches list.now) }
{
    format!(in alloc; "found outcome {number} switches {switches} order {list}\n")
}

// The line of a thread.
fn thread_line(
    alloc: Global,
    thread: usize,
    end: u8,
    code: u32,
    printed: usize,
) -> Result<String, AllocError>
    ensures { IfOk result (λ s. string_bytes s ≡ outcome_thread_line thread end code printed) }
{
    format!(in alloc; "thread {thread} end {end} code {code} out {printed}\n")
}

// The number of an end, 0 where there is none.
fn number_of(ended: Option<End>) -> u8
    ensures { result ≡ end_pair ended }
{
    match ended {
        None => 0,
        Some(end) => end.number(),
    }
}

// The code of an end, 0 where there is none.
fn code_of(ended: Option<End>) -> u32
    ensures { result ≡ end_code_of ended }
{
    match ended {
        None => 0,
        Some(end) => end.code(),
    }
}

/// Puts the lines of a thread.
pub fn put_thread(
    alloc: Global,
    text: &mut Vec<u8>,
    number: usize,
    thread: &Thread,
) -> Result<(), AllocError>
    ensures { OnOk result (text.new.items ≡ text.old.items ++ outcome_thread_text number thread.now) }
{
    let ended = thread.ended();
    let printed = thread.output();
    let line = thread_line(
        alloc,
        number,
        number_of(ended),
        code_of(ended),
        printed.len(),
    )?;
    text.extend_from_slice(line.as_bytes())?;
    put_bytes(alloc, text, printed)
}

/// Puts the line of an object.
pub fn put_object(
    alloc: Global,
    text: &mut Vec<u8>,
    number: usize,
    words: &[u32],
) -> Result<(), AllocError>
    ensures { OnOk result (text.new.items ≡ text.old.items ++ outcome_object_line number words.now) }
{
    text.extend_from_slice(format!(in alloc; "object {number} words")?.as_bytes())?;
    put_words(text, words)?;
    text.push(b'\n')?;
    Ok(())
}

// Why a search stopped, in words.
fn why_text(alloc: Global, stop: Stop) -> Result<String, AllocError>
    ensures { IfOk result (λ s. string_bytes s ≡ stop_words stop) }
{
    match stop {
        Stop::Nodes => String::from_str(alloc, "states"),
        Stop::Private(thread) => format!(in alloc; "private {thread}"),
        Stop::Log(thread) => format!(in alloc; "log {thread}"),
        Stop::World(thread) => format!(in alloc; "world {thread}"),
        Stop::Memory => String::from_str(alloc, "memory"),
        Stop::Time => String::from_str(alloc, "seconds"),
        Stop::Outcomes => String::from_str(alloc, "outcomes"),
    }
}

// Up to how many switches the outcomes are complete, if so many levels are gone over.
fn covered_text(alloc: Global, levels: usize) -> Result<String, AllocError>
    ensures { IfOk result (λ s. string_bytes s ≡ covered_text levels) }
{
    if levels == 0 {
        return String::from_str(alloc, "-");
    }
    let switches = levels - 1;
    format!(in alloc; "{switches}")
}

/// The line of a hang, with the list that spells the order that leads to it.
pub fn hang_line(alloc: Global, switches: usize, list: &str) -> Result<String, AllocError>
    ensures { IfOk result (λ s. string_bytes s ≡ hang_line switches list.now) }
{
    format!(in alloc; "hang switches {switches} order {list}\n")
}

/// How many outcomes there are, and how many states.
pub fn counts_text(alloc: Global, outcomes: usize, states: usize) -> Result<String, AllocError>
    ensures { IfOk result (λ s. string_bytes s ≡ counts_text outcomes states) }
{
    format!(in alloc; "outcomes {outcomes} states {states}")
}

/// How a search ended that has gone over so many levels.
pub fn ended_text(alloc: Global, ended: Ended, levels: usize) -> Result<String, AllocError>
    ensures { IfOk result (λ s. string_bytes s ≡ ended_text ended levels) }
{
    let covered = covered_text(alloc, levels)?;
    match ended {
        Ended::Finished => String::from_str(alloc, "finished"),
        Ended::Covered => format!(in alloc; "covered {covered}"),
        Ended::Stopped(stop) => {
            let why = why_text(alloc, stop)?;
            format!(in alloc; "stopped {why} covered {covered}")
        }
    }
}

/// How many states have no way to an end, where that is known.
pub fn hangs_text(alloc: Global, ended: Ended, hangs: usize) -> Result<String, AllocError>
    ensures { IfOk result (λ s. string_bytes s ≡ hangs_text ended hangs) }
{
    match ended {
        Ended::Finished => format!(in alloc; " hangs {hangs}"),
        _ => Ok(String::new(alloc)),
    }
}

/// That a call for the time is answered by a count, if some is.
pub fn clock_text(timed: bool) -> &'static str
    ensures { result.now ≡ clock_text timed }
{
    if timed { " clock counted" } else { "" }
}

/// The last line.
pub fn last_line(
    alloc: Global,
    ended: &str,
    counts: &str,
    hangs: &str,
    clock: &str,
) -> Result<String, AllocError>
    ensures { IfOk result (λ s. string_bytes s ≡ search_line ended.now counts.now hangs.now clock.now) }
{
    format!(in alloc; "{ended} {counts}{hangs}{clock}\n")
}
