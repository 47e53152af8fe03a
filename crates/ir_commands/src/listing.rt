//! A trace in lines.

ghost use Rattle.std.specs.Prelude.{◌≡◌, OnOk, IfOk, IfErr, unwrap_or, false};
ghost use Rattle.std.specs.String.{string_bytes};
ghost use Rattle.std.specs.Io.KnownBytes.{Appends};
ghost use Rattle.ir_commands.specs.Listing.{profile_number, header_line, thread_listing, threads_listing, listing};
ghost use Rattle.ir_past.specs.Answers.{refused_line, Stops};
ghost use Rattle.ir_trace.specs.Recorded.{trace_fault_number};
ghost use Rattle.ir_files.specs.Writers.{writer_of};

use ir_past::{PastErr, Refusal, refuse};
use ir_record_command::thread_line;
use ir_stream::{Sink, write_all};
use ir_text::write_log;
use ir_thread::Profile;
use ir_trace::{ThreadTrace, Trace, TraceErr};
use std::alloc::{AllocError, Global};

fn profile_number(profile: Profile) -> u8
    ensures { result ≡ profile_number profile }
{
    match profile {
        Profile::One => 1,
        Profile::Two => 2,
    }
}

fn header_line(
    alloc: Global,
    threads: usize,
    objects: u8,
    budget: u64,
    profile: Profile,
) -> Result<String, AllocError>
    ensures { IfOk result (λ s. string_bytes s ≡ header_line threads objects budget profile) }
{
    let number = profile_number(profile);
    format!(in alloc; "threads {threads} objects {objects} budget {budget} profile {number}\n")
}

// Writes the line of a thread, and then its events.
fn put_thread<W: Sink>(
    alloc: Global,
    number: usize,
    thread: &ThreadTrace,
    out: &mut W,
) -> Result<(), PastErr>
    requires { W.broken out.old ≡ false }
    ensures ok { OnOk result (Appends (W.written out.old) (W.written out.new) (thread_listing number thread.now)) }
    ensures works { OnOk result (W.broken out.new ≡ false) }
    ensures fails { IfErr result (λ e. Stops e (writer_of (W.written out.old) (W.written out.new) (W.broken out.new)) (thread_listing number thread.now)) }
{
    let line = thread_line(alloc, number, thread)?;
    write_all(out, line.as_bytes())?;
    let events = thread.log().events();
    write_log(events, events.len(), out)?;
    Ok(())
}

// Writes the lines of each thread.
fn put_threads<W: Sink>(alloc: Global, threads: &[ThreadTrace], out: &mut W) -> Result<(), PastErr>
    requires { W.broken out.old ≡ false }
    ensures ok { OnOk result (Appends (W.written out.old) (W.written out.new) (threads_listing 0 threads.now)) }
    ensures works { OnOk result (W.broken out.new ≡ false) }
    ensures fails { IfErr result (λ e. Stops e (writer_of (W.written out.old) (W.written out.new) (W.broken out.new)) (threads_listing 0 threads.now)) }
{
    for (number, thread) in threads.iter().enumerate() {
        put_thread(alloc, number, thread, out)?;
    }
    Ok(())
}

/// Writes the lines of a trace: how many threads and objects there are, the budget and the profile, and for each thread the line of its
/// recording and its whole log. The memory that is taken doesn't grow with the events.
///
/// # Errors
/// Out of memory, or the writer failed; then a prefix of the lines was written.
pub fn write_listing<W: Sink>(alloc: Global, trace: &Trace, out: &mut W) -> Result<(), PastErr>
    requires { W.broken out.old ≡ false }
    ensures ok { OnOk result (Appends (W.written out.old) (W.written out.new) (listing trace.now)) }
    ensures works { OnOk result (W.broken out.new ≡ false) }
    ensures fails { IfErr result (λ e. Stops e (writer_of (W.written out.old) (W.written out.new) (W.broken out.new)) (listing trace.now)) }
{
    let threads = trace.threads();
    let header = header_line(
        alloc,
        threads.len(),
        trace.objects(),
        trace.budget(),
        trace.profile(),
    )?;
    write_all(out, header.as_bytes())?;
    put_threads(alloc, threads, out)
}

/// Writes the line that refuses a trace for its fault.
///
/// # Errors
/// Out of memory, or the writer failed; then a prefix of the line was written.
pub fn write_refusal<W: Sink>(alloc: Global, error: &TraceErr, out: &mut W) -> Result<(), PastErr>
    requires { W.broken out.old ≡ false }
    ensures ok { OnOk result (Appends (W.written out.old) (W.written out.new) (refused_line (unwrap_or (trace_fault_number error.now) 0))) }
    ensures works { OnOk result (W.broken out.new ≡ false) }
    ensures fails { IfErr result (λ e. Stops e (writer_of (W.written out.old) (W.written out.new) (W.broken out.new)) (refused_line (unwrap_or (trace_fault_number error.now) 0))) }
{
    let number = error.number().unwrap_or(0);
    refuse(alloc, &Refusal::NoTrace(number), out)?;
    Ok(())
}
