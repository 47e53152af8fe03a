//! An image in, the trace of a run of its guest, what each thread printed and a line for each thread out.

ghost use Rattle.std.specs.Prelude.{◌≡◌, ◌<◌, ◌≤◌, ◌+◌, ℕ, List, Some, None, Ok, Err, true, false, IfOk, IfErr, OnOk, OnErr, ◌⊎◌, map};
ghost use Rattle.std.specs.String.{string_bytes};
ghost use Rattle.std.specs.Io.KnownBytes.{Appends};
ghost use Rattle.ir_image.specs.Guest.{most_threads};
ghost use Rattle.ir_record_command.specs.Order.{order_of};
ghost use Rattle.ir_trace.specs.Encoding.{encoding};
ghost use Rattle.ir_record.specs.Recording.{printed_by};
ghost use Rattle.ir_record_command.specs.Recording.{IsRecordedOf, line_by, recorded_thread_line, recording_lines};
ghost use Rattle.ir_files.specs.Outputs.{output_writer_of, TookEach, FailedAtOne};
ghost use Rattle.ir_files.specs.Writers.{writer_of};
ghost use Rattle.ir_record_command.specs.Faults.{Allows, RefusesRecord, WriteFails, StopsRecord, IsItemReported, IsReported, unwritten_of};
ghost use Rattle.ir_record_command.specs.Stopping.{telling, tellings, devices, StopsRecording};
ghost use Rattle.ir_record_command.specs.declared.record_fault.RecordFault.{RecordFault};
ghost use Rattle.ir_record_command.specs.declared.record_fault.RecordFault.TheVariants.{NoMem, Clock, Order};

use crate::files::{RecordFiles, Recording};
use crate::order::{bad_item, read_order};
use crate::parsed_image::ParsedImage;
use crate::plan::RecordPlan;
use crate::record_fault::RecordFault;
use ir_files::{ExitStatus, OutputSink, WholeSink, tell, tell_of};
use ir_object::Gate;
use ir_record::{Limits, Outputs, RecordErr, record, record_with_refusals};
use ir_stream::{DeviceErr, Sink, write_all};
use ir_trace::{ThreadTrace, Trace, write_trace};
use ir_world::{ProgramWorld, Time, worlds};
use std::alloc::{AllocError, Global};
use std::sync::Wait;
use std::thread::Threads;
use std::time::{Clock, Instant};

// What stops a recording by threads: memory, or the clock of a thread that asks for the time.
fn stopped_by<C: Clock>(why: RecordErr<ProgramWorld<C>>) -> RecordFault
    ensures { (result ≡ NoMem) ⊎ (result ≡ Clock) }
{
    let RecordErr::World { thread, worlds } = why else {
        return RecordFault::NoMem;
    };
    match worlds.get(thread as usize) {
        Some(world) if world.is_full() => RecordFault::NoMem,
        _ => RecordFault::Clock,
    }
}

// What each thread printed, without their worlds.
fn printed<W: Drop>(alloc: Global, outputs: Outputs<W>) -> Result<Vec<Vec<u8>>, AllocError>
    ensures { IfOk result (λ v. map (λ b. b.items) v.items ≡ printed_by outputs) }
{
    let mut printed = Vec::with_capacity(alloc, outputs.each.len())?;
    for output in outputs.each {
        printed.push(output.bytes)?;
    }
    Ok(printed)
}

// The recording of the image's guest by the order that the list spells, on one thread: the trace, and what each thread
// printed.
#[tactic(auto, using(ir_image::proofs::CallerLemmas::guest_threads_within))]
fn recorded_in_order<C: Clock>(
    clock: &C,
    alloc: Global,
    image: &ParsedImage<'_>,
    list: &str,
    plan: &RecordPlan<'_>,
) -> Result<(Trace, Vec<Vec<u8>>), RecordFault>
    requires { plan.now.order ≡ Some list.now }
    ensures recorded { IfOk result (λ r. IsRecordedOf image.now plan.now r.0 (map (λ b. b.items) r.1.items)) }
    ensures allowed { OnOk result (Allows image.now plan.now) }
    ensures refused { IfErr result (λ e. RefusesRecord e image.now plan.now) }
{
    let guest = image.allowed(plan)?;
    let threads = guest.entries().len();
    let order = match read_order(alloc, list, threads) {
        Ok(order) => order,
        Err(why) => return Err(RecordFault::of_order(&why, threads)),
    };
    let worlds = worlds(
        alloc,
        clock,
        Time::Counted,
        threads,
        plan.random,
        plan.input,
    )?;
    match record_with_refusals(
        alloc,
        guest,
        order.as_slice(),
        worlds,
        plan.budget,
        plan.profile,
    ) {
        Ok((trace, outputs)) => Ok((trace, printed(alloc, outputs)?)),
        // A world that counts its time fails only where it has no room for more answers.
        Err(_) => Err(RecordFault::NoMem),
    }
}

// The same of a recording of the image's guest by threads.
fn recorded_by_threads<R: Threads + Wait + Sync + Clock, G: Gate + Sync>(
    rt: &R,
    alloc: Global,
    gate: &G,
    image: &ParsedImage<'_>,
    plan: &RecordPlan<'_>,
) -> Result<(Trace, Vec<Vec<u8>>), RecordFault>
    requires { plan.now.order ≡ None }
    ensures recorded { IfOk result (λ r. IsRecordedOf image.now plan.now r.0 (map (λ b. b.items) r.1.items)) }
    ensures allowed { OnOk result (Allows image.now plan.now) }
    ensures refused { IfErr result (λ e. RefusesRecord e image.now plan.now) }
{
    let guest = image.allowed(plan)?;
    let threads = guest.entries().len();
    let Ok(start) = Instant::now(rt) else {
        return Err(RecordFault::Clock);
    };
    let worlds = worlds(
        alloc,
        rt,
        Time::Since(start),
        threads,
        plan.random,
        plan.input,
    )?;
    let limits = Limits {
        budget: plan.budget,
        profile: plan.profile,
    };
    match record(rt, alloc, guest, worlds, gate, limits) {
        Ok((trace, outputs)) => Ok((trace, printed(alloc, outputs)?)),
        Err(why) => Err(stopped_by(why)),
    }
}

fn line_by(
    alloc: Global,
    number: usize,
    end: u8,
    code: u32,
    steps: u64,
    events: usize,
) -> Result<String, AllocError>
    ensures { IfOk result (λ s. string_bytes s ≡ line_by number end code steps events) }
{
    format!(in alloc; "thread {number} end {end} code {code} steps {steps} events {events}\n")
}

/// The line of a thread.
pub fn thread_line(alloc: Global, number: usize, thread: &ThreadTrace) -> Result<String, AllocError>
    ensures { IfOk result (λ s. string_bytes s ≡ recorded_thread_line number thread.now) }
{
    let end = thread.end();
    let events = thread.log().events().len();
    line_by(
        alloc,
        number,
        end.number(),
        end.code(),
        thread.steps(),
        events,
    )
}

// A line for each thread.
fn lines(alloc: Global, trace: &Trace) -> Result<String, AllocError>
    ensures { IfOk result (λ s. string_bytes s ≡ recording_lines trace.now) }
{
    let mut lines = String::new(alloc);
    for (number, thread) in trace.threads().iter().enumerate() {
        let line = thread_line(alloc, number, thread)?;
        lines.push_str(line.as_str())?;
    }
    Ok(lines)
}

// Puts what each thread printed, in the order of their numbers.
fn put_each<P: OutputSink>(outputs: &mut P, printed: &[Vec<u8>]) -> Result<(), DeviceErr>
    ensures ok { OnOk result (TookEach (output_writer_of (P.taken outputs.old) (P.taken outputs.new) (P.broken outputs.new)) (map (λ b. b.items) printed.now)) }
    ensures failed { OnErr result (FailedAtOne (output_writer_of (P.taken outputs.old) (P.taken outputs.new) (P.broken outputs.new)) (map (λ b. b.items) printed.now)) }
    ensures home { P.home outputs.new ≡ P.home outputs.old }
{
    for (thread, bytes) in printed.iter().enumerate() {
        outputs.put(thread, bytes.as_slice())?;
    }
    Ok(())
}

// Writes the trace, which then is in its place, then what each thread printed, and then the lines.
fn written<W: WholeSink, P: OutputSink, O: Sink>(
    trace: &mut W,
    outputs: &mut P,
    out: &mut O,
    bytes: &[u8],
    printed: &[Vec<u8>],
    lines: &[u8],
) -> Result<(), RecordFault>
    ensures trace { OnOk result (Appends (W.written trace.old) (W.written trace.new) bytes.now) }
    ensures whole { OnOk result (W.whole trace.new ≡ true) }
    ensures outputs { OnOk result (TookEach (output_writer_of (P.taken outputs.old) (P.taken outputs.new) (P.broken outputs.new)) (map (λ b. b.items) printed.now)) }
    ensures lines { OnOk result (Appends (O.written out.old) (O.written out.new) lines.now) }
    ensures failed { IfErr result (λ e. WriteFails e bytes.now (map (λ b. b.items) printed.now) lines.now
        (writer_of (W.written trace.old) (W.written trace.new) (W.broken trace.new))
        (output_writer_of (P.taken outputs.old) (P.taken outputs.new) (P.broken outputs.new))
        (writer_of (O.written out.old) (O.written out.new) (O.broken out.new))
        ((outputs.new ≡ outputs.old) × (out.new ≡ out.old)) (out.new ≡ out.old)) }
    ensures homes { (W.home trace.new ≡ W.home trace.old) × (P.home outputs.new ≡ P.home outputs.old) }
{
    if trace.put_whole(bytes).is_err() {
        return Err(RecordFault::Trace);
    }
    if put_each(outputs, printed).is_err() {
        return Err(RecordFault::Output);
    }
    if write_all(out, lines).is_err() {
        return Err(RecordFault::Lines);
    }
    Ok(())
}

// Writes what was recorded, if something was, and hands it back.
fn kept<W: WholeSink, P: OutputSink, O: Sink>(
    alloc: Global,
    recording: &Recording<'_, '_, '_, '_>,
    recorded: Result<(Trace, Vec<Vec<u8>>), RecordFault>,
    files: &mut RecordFiles<W, P>,
    out: &mut O,
) -> Result<Trace, RecordFault>
    requires recorded { IfOk recorded (λ r. IsRecordedOf recording.now.image.now recording.now.plan.now r.0 (map (λ b. b.items) r.1.items)) }
    requires allowed { OnOk recorded (Allows recording.now.image.now recording.now.plan.now) }
    requires refused { IfErr recorded (λ e. RefusesRecord e recording.now.image.now recording.now.plan.now) }
    ensures done { IfOk result (λ recorded. (printed : List (List ℕ)) × IsRecordedOf recording.now.image.now recording.now.plan.now recorded printed
        × Appends (W.written files.old.trace) (W.written files.new.trace) (encoding recorded)
        × TookEach (output_writer_of (P.taken files.old.outputs) (P.taken files.new.outputs) (P.broken files.new.outputs)) printed
        × Appends (O.written out.old) (O.written out.new) (recording_lines recorded)) }
    ensures whole { OnOk result (W.whole files.new.trace ≡ true) }
    ensures allowed { OnOk result (Allows recording.now.image.now recording.now.plan.now) }
    ensures stopped { IfErr result (λ e. StopsRecord e recording.now.image.now recording.now.plan.now
        (writer_of (W.written files.old.trace) (W.written files.new.trace) (W.broken files.new.trace))
        (output_writer_of (P.taken files.old.outputs) (P.taken files.new.outputs) (P.broken files.new.outputs))
        (writer_of (O.written out.old) (O.written out.new) (O.broken out.new))
        ((files.new.trace ≡ files.old.trace) × (files.new.outputs ≡ files.old.outputs) × (out.new ≡ out.old)) ((files.new.outputs ≡ files.old.outputs) × (out.new ≡ out.old)) (out.new ≡ out.old)) }
    ensures homes { (W.home files.new.trace ≡ W.home files.old.trace) × (P.home files.new.outputs ≡ P.home files.old.outputs) }
{
    let (recorded, printed) = recorded?;
    let bytes = write_trace(alloc, &recorded)?;
    let lines = lines(alloc, &recorded)?;
    match written(
        &mut files.trace,
        &mut files.outputs,
        out,
        bytes.as_slice(),
        printed.as_slice(),
        lines.as_bytes(),
    ) {
        Ok(()) => Ok(recorded),
        Err(why) => Err(why),
    }
}

// Reports that a list spells no order of a guest's threads: which item doesn't, and why.
fn tell_order<E: Sink>(faults: &mut E, list: &str, threads: usize)
    requires works { E.broken faults.old ≡ false }
    requires some { 1 ≤ threads }
    requires few { threads ≤ most_threads }
    requires bad { order_of threads list.now ≡ None }
    ensures { IsItemReported threads list.now (writer_of (E.written faults.old) (E.written faults.new) (E.broken faults.new)) }
{
    match bad_item(list, threads) {
        Some((item, why)) => tell_of(faults, "LIST: the item '", item, "' ", why),
        None => unreachable!(),
    }
}

// Reports why nothing was recorded, or not all of it written.
fn tell_fault<W: WholeSink, P: OutputSink, E: Sink>(
    faults: &mut E,
    why: &RecordFault,
    image: &ParsedImage<'_>,
    plan: &RecordPlan<'_>,
    trace: &W,
    outputs: &P,
)
    requires works { E.broken faults.old ≡ false }
    requires listed { (threads : ℕ) → why.now ≡ Order threads → RefusesRecord (Order threads) image.now plan.now }
    ensures { IsReported why.now image.now plan.now (unwritten_of (W.called trace.now) (W.cause trace.now)) (unwritten_of (P.called outputs.now) (P.cause outputs.now))
        (writer_of (E.written faults.old) (E.written faults.new) (E.broken faults.new)) }
{
    const UNWRITTEN: &str = " can't be written: ";
    match why {
        RecordFault::Order(threads) => match plan.order {
            Some(list) => tell_order(faults, list, *threads),
            None => unreachable!(),
        },
        RecordFault::Trace => tell_of(faults, "", trace.name(), UNWRITTEN, trace.why()),
        RecordFault::Output => tell_of(faults, "", outputs.name(), UNWRITTEN, outputs.why()),
        RecordFault::Image(_)
        | RecordFault::TooLarge
        | RecordFault::NoMem
        | RecordFault::Clock
        | RecordFault::Lines => tell(faults, why.words()),
    }
}

// Writes what was recorded, if something was, and hands it back. A fault is reported.
fn told<W: WholeSink, P: OutputSink, O: Sink, E: Sink>(
    alloc: Global,
    recording: &Recording<'_, '_, '_, '_>,
    recorded: Result<(Trace, Vec<Vec<u8>>), RecordFault>,
    files: &mut RecordFiles<W, P>,
    out: &mut O,
    faults: &mut E,
) -> Result<Trace, ExitStatus>
    requires recorded { IfOk recorded (λ r. IsRecordedOf recording.now.image.now recording.now.plan.now r.0 (map (λ b. b.items) r.1.items)) }
    requires allowed { OnOk recorded (Allows recording.now.image.now recording.now.plan.now) }
    requires refused { IfErr recorded (λ e. RefusesRecord e recording.now.image.now recording.now.plan.now) }
    requires reports { E.broken faults.old ≡ false }
    ensures done { IfOk result (λ recorded. (printed : List (List ℕ)) × IsRecordedOf recording.now.image.now recording.now.plan.now recorded printed
        × Appends (W.written files.old.trace) (W.written files.new.trace) (encoding recorded)
        × TookEach (output_writer_of (P.taken files.old.outputs) (P.taken files.new.outputs) (P.broken files.new.outputs)) printed
        × Appends (O.written out.old) (O.written out.new) (recording_lines recorded)) }
    ensures whole { OnOk result (W.whole files.new.trace ≡ true) }
    ensures allowed { OnOk result (Allows recording.now.image.now recording.now.plan.now) }
    ensures quiet { OnOk result (faults.new ≡ faults.old) }
    ensures stopped { IfErr result (λ status. StopsRecording (tellings (telling W.written W.broken W.called W.cause)
        (telling P.taken P.broken P.called P.cause) O.written O.broken) status recording.now.image.now recording.now.plan.now
        (devices files.old.trace files.old.outputs out.old) (devices files.new.trace files.new.outputs out.new)
        (writer_of (E.written faults.old) (E.written faults.new) (E.broken faults.new))) }
    // The files are those of the same places.
    ensures homes { (W.home files.new.trace ≡ W.home files.old.trace) × (P.home files.new.outputs ≡ P.home files.old.outputs) }
{
    match kept(alloc, recording, recorded, files, out) {
        Ok(recorded) => Ok(recorded),
        Err(why) => {
            let Recording { image, plan } = *recording;
            tell_fault(faults, &why, image, plan, &files.trace, &files.outputs);
            Err(why.status())
        }
    }
}

/// Records the guest of an image in the order that the list of its plan spells, on one thread. It waits for nothing. What is written and
/// reported is as of `record_run`.
///
/// # Errors
/// The exit status, as of `record_run`.
pub fn record_by_list<R: Clock + AllocGlobal, W: WholeSink, P: OutputSink, O: Sink, E: Sink>(
    rt: &R,
    recording: &Recording<'_, '_, '_, '_>,
    list: &str,
    files: &mut RecordFiles<W, P>,
    out: &mut O,
    faults: &mut E,
) -> Result<Trace, ExitStatus>
    requires list { recording.now.plan.now.order ≡ Some list.now }
    requires writes { W.broken files.old.trace ≡ false }
    requires puts { P.broken files.old.outputs ≡ false }
    requires prints { O.broken out.old ≡ false }
    requires reports { E.broken faults.old ≡ false }
    // Of the run by the order the trace was written, what each of its threads printed as that
    // thread's output, and its lines, and no fault reported.
    ensures done { IfOk result (λ recorded. (printed : List (List ℕ)) × IsRecordedOf recording.now.image.now recording.now.plan.now recorded printed
        × Appends (W.written files.old.trace) (W.written files.new.trace) (encoding recorded)
        × TookEach (output_writer_of (P.taken files.old.outputs) (P.taken files.new.outputs) (P.broken files.new.outputs)) printed
        × Appends (O.written out.old) (O.written out.new) (recording_lines recorded)) }
    ensures whole { OnOk result (W.whole files.new.trace ≡ true) }
    // The profile allows its threads and objects.
    ensures allowed { OnOk result (Allows recording.now.image.now recording.now.plan.now) }
    ensures quiet { OnOk result (faults.new ≡ faults.old) }
    // Else what stopped it, what that left, and that it is reported.
    ensures stopped { IfErr result (λ status. StopsRecording (tellings (telling W.written W.broken W.called W.cause)
        (telling P.taken P.broken P.called P.cause) O.written O.broken) status recording.now.image.now recording.now.plan.now
        (devices files.old.trace files.old.outputs out.old) (devices files.new.trace files.new.outputs out.new)
        (writer_of (E.written faults.old) (E.written faults.new) (E.broken faults.new))) }
    // The files are those of the same places.
    ensures homes { (W.home files.new.trace ≡ W.home files.old.trace) × (P.home files.new.outputs ≡ P.home files.old.outputs) }
{
    let alloc = rt.alloc();
    let Recording { image, plan } = *recording;
    let recorded = recorded_in_order(rt, alloc, image, list, plan);
    told(alloc, recording, recorded, files, out, faults)
}

/// Records the guest of an image by a plan: in the order that its list spells, on one thread; without a list on real
/// threads. Writes the trace, then what each thread printed, an output each, and then a line `thread T end E code C steps S
/// events N` for each thread. The budget is in steps, for each thread. RANDOM gives the words of PCG32, started for thread T
/// by the number `random` plus T, modulo 2^64. CLOCK counts its own calls from 0, in each thread, and without a list gives
/// the milliseconds since the start, modulo 2^32. Each thread's INPUT gives all bytes of the input. Without a list it may
/// wait for threads, and that it ends isn't promised; the gate is given notice of what they do. The profile says which system calls
/// there are.
/// Where all were written and the trace is in its place, what was recorded is handed back.
///
/// # Errors
/// The exit status: `Refused` if the image is refused, it has more threads or objects than the profile allows, or the list
/// spells no order of its threads. It is `Failed` if memory ran out, the clock can't be read or a writer failed. Then what was
/// written before stays. A fault is reported in one line.
pub fn record_run<
    R: Threads + Wait + Sync + Clock + AllocGlobal,
    G: Gate + Sync,
    W: WholeSink,
    P: OutputSink,
    O: Sink,
    E: Sink,
>(
    rt: &R,
    gate: &G,
    recording: &Recording<'_, '_, '_, '_>,
    files: &mut RecordFiles<W, P>,
    out: &mut O,
    faults: &mut E,
) -> Result<Trace, ExitStatus>
    requires writes { W.broken files.old.trace ≡ false }
    requires puts { P.broken files.old.outputs ≡ false }
    requires prints { O.broken out.old ≡ false }
    requires reports { E.broken faults.old ≡ false }
    // Of the run by the order, or of some complete run, the trace was written, what each of its threads printed as that
    // thread's output, and its lines, and no fault reported.
    ensures done { IfOk result (λ recorded. (printed : List (List ℕ)) × IsRecordedOf recording.now.image.now recording.now.plan.now recorded printed
        × Appends (W.written files.old.trace) (W.written files.new.trace) (encoding recorded)
        × TookEach (output_writer_of (P.taken files.old.outputs) (P.taken files.new.outputs) (P.broken files.new.outputs)) printed
        × Appends (O.written out.old) (O.written out.new) (recording_lines recorded)) }
    ensures whole { OnOk result (W.whole files.new.trace ≡ true) }
    // The profile allows its threads and objects.
    ensures allowed { OnOk result (Allows recording.now.image.now recording.now.plan.now) }
    ensures quiet { OnOk result (faults.new ≡ faults.old) }
    // Else what stopped it, what that left, and that it is reported.
    ensures stopped { IfErr result (λ status. StopsRecording (tellings (telling W.written W.broken W.called W.cause)
        (telling P.taken P.broken P.called P.cause) O.written O.broken) status recording.now.image.now recording.now.plan.now
        (devices files.old.trace files.old.outputs out.old) (devices files.new.trace files.new.outputs out.new)
        (writer_of (E.written faults.old) (E.written faults.new) (E.broken faults.new))) }
    // The files are those of the same places.
    ensures homes { (W.home files.new.trace ≡ W.home files.old.trace) × (P.home files.new.outputs ≡ P.home files.old.outputs) }
{
    let Recording { image, plan } = *recording;
    match plan.order {
        Some(list) => record_by_list(rt, recording, list, files, out, faults),
        None => {
            let alloc = rt.alloc();
            let recorded = recorded_by_threads(rt, alloc, gate, image, plan);
            told(alloc, recording, recorded, files, out, faults)
        }
    }
}
