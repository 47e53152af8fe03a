//! The lines of the ends of threads, for other viewers.

ghost use Rattle.std.specs.Prelude.{◌≡◌, ◌++◌, length, OnOk};
ghost use Rattle.ir_picture.specs.Chrome.{end_name, end_start, thread_end_line, end_lines, ends_part};

use crate::asked::Around;
use crate::pieces::{push_number, push_words};
use crate::placed_box::Point;
use crate::rows::thread_row;
use crate::slices::time_of;
use ir_thread::End;
use ir_trace::{ThreadTrace, Trace};
use std::alloc::{AllocError, Global};

// Adds how a thread ended, in words.
fn push_end_name(text: &mut Vec<u8>, end: End) -> Result<(), AllocError>
    ensures { OnOk result (text.new.items ≡ text.old.items ++ end_name end) }
{
    match end {
        End::Exit(code) => push_number(text, b"end, code ", code),
        End::Breakpoint => push_words(text, b"breakpoint"),
        End::IllegalWord => push_words(text, b"no instruction"),
        End::TargetMisaligned => push_words(text, b"misaligned jump"),
        End::OutsideCode => push_words(text, b"outside the code"),
        End::BadLoad => push_words(text, b"bad load"),
        End::BadStore => push_words(text, b"bad store"),
        End::UnknownCall => push_words(text, b"unknown call"),
        End::NoSuchObject => push_words(text, b"no such object or word"),
        End::EntryOutOfOrder => push_words(text, b"entry out of order"),
        End::NotHeld => push_words(text, b"not held"),
        End::OutputFull => push_words(text, b"too much output"),
        End::BudgetSpent => push_words(text, b"budget spent"),
        End::LogFull => push_words(text, b"too many events"),
    }
}

// Adds the line of the end of the thread of a number at a place up to what is known of it.
fn push_end_start(
    text: &mut Vec<u8>,
    number: usize,
    end: End,
    place: Point,
) -> Result<(), AllocError>
    ensures { OnOk result (text.new.items ≡ text.old.items ++ end_start number end place) }
{
    push_words(text, b",\n{\"name\":\"")?;
    push_end_name(text, end)?;
    push_number(
        text,
        b"\",\"cat\":\"end\",\"ph\":\"i\",\"s\":\"t\",\"ts\":",
        time_of(place.x),
    )?;
    push_number(text, b",\"pid\":1,\"tid\":", number as u128 * 64)
}

// Adds the line of the end of the thread of a number at a place.
fn push_end(
    alloc: Global,
    text: &mut Vec<u8>,
    number: usize,
    thread: &ThreadTrace,
    place: Point,
) -> Result<(), AllocError>
    ensures { OnOk result (text.new.items ≡ text.old.items ++ thread_end_line number thread.now place) }
{
    let known = thread_row(alloc, thread, place)?;
    push_end_start(text, number, thread.end(), place)?;
    push_words(text, b",\"args\":")?;
    push_words(text, known.as_bytes())?;
    push_words(text, b"}")
}

// Adds the lines of the ends of threads.
fn push_ends(
    alloc: Global,
    text: &mut Vec<u8>,
    threads: &[ThreadTrace],
    ends: &[Point],
) -> Result<(), AllocError>
    requires { length ends.now ≡ length threads.now }
    ensures { OnOk result (text.new.items ≡ text.old.items ++ end_lines 0 threads.now ends.now) }
{
    for (number, thread) in threads.iter().enumerate() {
        push_end(alloc, text, number, thread, ends[number])?;
    }
    Ok(())
}

/// Adds the lines of the ends of threads, where all of a trace is shown.
///
/// # Errors
/// Out of memory.
pub fn push_ends_part(
    alloc: Global,
    text: &mut Vec<u8>,
    trace: &Trace,
    near: &Option<Around>,
    ends: &[Point],
) -> Result<(), AllocError>
    requires { length ends.now ≡ length trace.now.threads }
    ensures { OnOk result (text.new.items ≡ text.old.items ++ ends_part trace.now near.now ends.now) }
{
    match near {
        None => push_ends(alloc, text, trace.threads(), ends),
        Some(_) => Ok(()),
    }
}
