//! How the threads of a recording ended, in words.

ghost use Rattle.std.specs.Prelude.{◌≡◌, IfErr, OnErr, OnOk, Some};
ghost use Rattle.std.specs.List.{list_all};
ghost use Rattle.ir_schedule.specs.Conditions.{exits_with};
ghost use Rattle.ir_commands.specs.Files.{GoesOn};
ghost use Rattle.ir_files.specs.declared.exit_status.ExitStatus.TheVariants as status;

use crate::files::say;
use ir_files::ExitStatus;
use ir_stream::Sink;
use ir_thread::{End, Profile};
use ir_trace::Trace;
use std::alloc::{AllocError, Global};

// What an end is, in the words of the help of `ir record`.
fn words(end: End) -> &'static str {
    match end {
        End::Exit(_) => "END",
        End::Breakpoint => "EBREAK",
        End::IllegalWord => "no instruction",
        End::TargetMisaligned => "a misaligned jump",
        End::OutsideCode => "outside the code",
        End::BadLoad => "a bad load",
        End::BadStore => "a bad store",
        End::UnknownCall => "an unknown call",
        End::NoSuchObject => "no such object or word",
        End::EntryOutOfOrder => "an entry out of order",
        End::NotHeld => "an object that isn't held",
        End::OutputFull => "too much output",
        End::BudgetSpent => "the budget is spent",
        End::LogFull => "too many events",
    }
}

// The end of a thread in a line.
fn line(alloc: Global, number: usize, end: End) -> Result<String, AllocError> {
    let words = words(end);
    match end {
        End::Exit(code) => format!(in alloc; "thread {number} ended by {words} with code {code}"),
        _ => format!(in alloc; "thread {number} ended: {words}"),
    }
}

// Whether a thread ended by END with code 0.
fn is_well(end: End) -> bool
    ensures { result ≡ exits_with 0 (Some end) }
{
    match end {
        End::Exit(code) => code == 0,
        _ => false,
    }
}

/// Whether each thread ended by END with code 0.
pub fn all_ended(trace: &Trace) -> bool
    ensures { result ≡ list_all (λ t. exits_with 0 (Some t.end)) trace.now.threads }
{
    trace.threads().iter().all(|thread| is_well(thread.end()))
}

// Whether a thread ended by a call that may be known in the second profile.
fn has_unknown_call(trace: &Trace) -> bool {
    let is_first = trace.profile() == Profile::One;
    is_first
        && trace
            .threads()
            .iter()
            .any(|thread| thread.end() == End::UnknownCall)
}

// Reports the end of a thread, unless it is END with code 0.
fn tell_end<E: Sink>(alloc: Global, number: usize, end: End, faults: &mut E)
    ensures { GoesOn (E.written faults.old) (E.written faults.new) }
{
    if end == End::Exit(0) {
        return;
    }
    if let Ok(line) = line(alloc, number, end) {
        say(faults, line.as_str(), "", "");
    }
}

// Reports each other end, in a line each.
fn tell_each<E: Sink>(alloc: Global, trace: &Trace, faults: &mut E)
    ensures { GoesOn (E.written faults.old) (E.written faults.new) }
{
    for (number, thread) in trace.threads().iter().enumerate() {
        tell_end(alloc, number, thread.end(), faults);
    }
}

/// Reports each other end, in a line each. If a call was unknown that the second profile may have, that is said.
pub fn tell_ends<E: Sink>(alloc: Global, trace: &Trace, faults: &mut E)
    ensures { GoesOn (E.written faults.old) (E.written faults.new) }
{
    tell_each(alloc, trace, faults);
    if has_unknown_call(trace) {
        say(faults, "TRY_WRITE is a call with --profile 2 only", "", "");
    }
}

/// The exit status of a command that records: `Done` if there is a recording, whose other ends are reported if they are asked for.
pub fn recorded_status<E: Sink>(
    alloc: Global,
    recorded: Result<Trace, ExitStatus>,
    explains: bool,
    faults: &mut E,
) -> ExitStatus
    ensures done { OnOk recorded (result ≡ status.Done) }
    ensures stopped { IfErr recorded (λ status. result ≡ status) }
    ensures kept { OnErr recorded (faults.new ≡ faults.old) }
    ensures grows { GoesOn (E.written faults.old) (E.written faults.new) }
{
    match recorded {
        Ok(recorded) => {
            if explains {
                tell_ends(alloc, &recorded, faults);
            }
            ExitStatus::Done
        }
        Err(status) => status,
    }
}
