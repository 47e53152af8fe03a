//! A recorded run is shrunk, and what it is shrunk to is recorded.

ghost use Rattle.std.specs.Prelude.{◌≡◌, ◌≢◌, false, true, map, IfOk, IfErr, OnOk};
ghost use Rattle.std.specs.String.{string_bytes};
ghost use Rattle.ir_files.specs.Writers.{writer_of};
ghost use Rattle.ir_record_command.specs.Stopping.{telling, tellings, devices};
ghost use Rattle.ir_record_command.specs.declared.record_fault.RecordFault.{RecordFault};
ghost use Rattle.ir_record_command.specs.declared.record_fault.RecordFault.TheVariants.{NoMem};
ghost use Rattle.ir_shrink.specs.Judging.{IsKeptOf};
ghost use Rattle.ir_shrink.specs.Lines.{shrunk_lines};
ghost use Rattle.ir_shrink.specs.Shrinking.{goal_of, IsOrderOf};
ghost use Rattle.ir_shrink.specs.Stopping.{IsShrunkIn, IsRefusalTold, RecordsShrunk, RefusesRun, RefusesShrink, StopsShrink, shrink_status, wanted_text, text_at};
ghost use Rattle.ir_shrink.specs.declared.refusal.Refusal.TheVariants.{Fault};

use crate::judging::{Judge, Kept, Verdict};
use crate::leading::order_of;
use crate::pace::Pace;
use crate::plan::ShrinkPlan;
use crate::playing::{Played, play};
use crate::refusal::Refusal;
use crate::report::shrunk_lines;
use crate::switches::switches;
use ir_files::{ExitStatus, OutputSink, WholeSink, tell, tell_of};
use ir_hunt::by_list;
use ir_order::list_of_items;
use ir_record_command::{ParsedImage, RecordFault, RecordFiles, Recording, record_by_list};
use ir_stream::{Sink, write_all};
use ir_trace::{Trace, encoding_is_read, write_trace};
use std::alloc::{AllocError, Global};
use std::time::Clock;

/// A run of a guest that was recorded.
#[derive(Clone, Copy)]
pub struct GivenRun<'a, 'i> {
    /// The guest's image.
    pub image: &'a ParsedImage<'i>,
    /// The trace of the run.
    pub trace: &'a Trace,
}

/// What a run is shrunk to.
#[derive(Drop)]
pub struct Shrunk {
    /// What was recorded of it.
    pub trace: Trace,
    /// Whether it is known that no turn boundary can be taken from it; else the time was over.
    pub is_minimal: bool,
}

// What a search came to: the switches before and after, the list of the order with fewer, and the lines that say so.
#[derive(Drop)]
struct Found {
    before: u64,
    after: u64,
    list: String,
    lines: String,
    is_minimal: bool,
}

// Whether two traces are the same.
fn are_same(alloc: Global, one: &Trace, other: &Trace) -> Result<bool, AllocError>
    ensures same { IfOk result (λ same. same ≡ true → one.now ≡ other.now) }
    ensures differ { IfOk result (λ same. same ≡ false → one.now ≢ other.now) }
{
    encoding_is_read();
    if one.budget() != other.budget() {
        return Ok(false);
    }
    let first = write_trace(alloc, one)?;
    let second = write_trace(alloc, other)?;
    Ok(first.as_slice() == second.as_slice())
}

impl<C: Clock> Judge<'_, C> {
    // An order of the run with the trace, with its switches, where it fulfils all.
    fn given(&self, trace: &Trace) -> Result<Kept, Refusal>
        ensures kept { IfOk result (IsKeptOf (goal_of self.now.image.now self.now.plan.now)) }
        ensures order { IfOk result (λ kept. IsOrderOf self.now.image.now self.now.plan.now.record trace.now kept.items.items kept.switches) }
        ensures refused { IfErr result (λ e. RefusesRun e (goal_of self.now.image.now self.now.plan.now) trace.now) }
        ensures memory { IfErr result (λ e. (f : RecordFault) → e ≡ Fault f → f ≡ NoMem) }
    {
        let plan = &self.plan.record;
        let order = order_of(self.alloc, self.image, plan, trace)?;
        let played = play(self.alloc, self.clock, self.image, plan, order.as_slice())?;
        let own = self.trace_of(played.items.as_slice())?;
        let is_same = are_same(self.alloc, &own, trace)?;
        if !is_same {
            return Err(Refusal::Other);
        }
        let verdict = self.judged(&played)?;
        match verdict {
            Verdict::Good => {
                let count = switches(played.items.as_slice());
                Ok(Kept {
                    items: played.items,
                    switches: count,
                })
            }
            Verdict::Unmet(place) => Err(Refusal::Unmet(place)),
            Verdict::Stale => Err(Refusal::Stale),
        }
    }
}

// What the search of a plan comes to.
fn seek<R: Clock + Eprint>(
    rt: &R,
    alloc: Global,
    image: &ParsedImage<'_>,
    trace: &Trace,
    plan: &ShrinkPlan<'_>,
) -> Result<Found, Refusal>
    ensures found { IfOk result (λ f. IsShrunkIn image.now plan.now trace.now f.before f.after (string_bytes f.list) f.is_minimal) }
    ensures lines { IfOk result (λ f. string_bytes f.lines ≡ shrunk_lines f.before f.after (string_bytes f.list) f.is_minimal) }
    ensures refused { IfErr result (λ e. RefusesShrink e image.now plan.now trace.now) }
{
    let guest = image.allowed(&plan.record)?;
    let judge = Judge {
        alloc,
        clock: rt,
        image: guest,
        plan,
    };
    let given = judge.given(trace)?;
    let before = given.switches;
    let pace = Pace::new(rt, plan.seconds, plan.is_shown);
    let shrunken = judge.shrunken(&pace, given)?;
    let after = shrunken.kept.switches;
    let is_minimal = shrunken.is_minimal;
    let list = list_of_items(alloc, shrunken.kept.items.as_slice())?;
    let lines = shrunk_lines(alloc, before, after, list.as_str(), is_minimal)?;
    Ok(Found {
        before,
        after,
        list,
        lines,
        is_minimal,
    })
}

// What is asked of stale writes, as it is written.
fn wanted_text(wanted: Option<bool>) -> &'static str
    ensures { result.now ≡ wanted_text wanted }
{
    match wanted {
        Some(false) => "!stale",
        _ => "stale",
    }
}

// The text at a place, if there is one.
fn text_at(texts: &[String], place: usize) -> &str
    ensures { result.now ≡ text_at (map string_bytes texts.now) place }
{
    match texts.get(place) {
        Some(text) => text.as_str(),
        None => "",
    }
}

// Reports why a run isn't shrunk.
fn tell_refusal<E: Sink>(faults: &mut E, why: &Refusal, plan: &ShrinkPlan<'_>)
    requires { E.broken faults.old ≡ false }
    ensures { IsRefusalTold why.now plan.now (writer_of (E.written faults.old) (E.written faults.new) (E.broken faults.new)) }
{
    const UNMET: &str = "the run of TRACE doesn't fulfil '";
    match why {
        Refusal::Fault(fault) => tell(faults, fault.words()),
        Refusal::Other => tell(
            faults,
            "no run was found that has TRACE with this --random and this --input, where calls for the time are counted",
        ),
        Refusal::Unmet(place) => tell_of(faults, UNMET, text_at(plan.texts, *place), "'", ""),
        Refusal::Stale => tell_of(faults, UNMET, wanted_text(plan.stale), "'", ""),
    }
}

// The same, and the exit status.
fn refused<E: Sink>(faults: &mut E, why: &Refusal, plan: &ShrinkPlan<'_>) -> ExitStatus
    requires { E.broken faults.old ≡ false }
    ensures status { result ≡ shrink_status why.now }
    ensures told { IsRefusalTold why.now plan.now (writer_of (E.written faults.old) (E.written faults.new) (E.broken faults.new)) }
{
    tell_refusal(faults, why, plan);
    why.status()
}

/// Shrinks the run of a guest with a trace to one with fewer switches that fulfils each condition of the plan too, and records it. First a line
/// `shrunk S0 to S1 order LIST` is written, and `minimal` if no turn boundary can be taken from LIST, or `stopped seconds` if the time was over
/// before that was known. All that `record_by_list` writes of the recording by LIST follows.
///
/// # Errors
/// The exit status. It is `NotFit` if no order is found whose run has the trace, and `NotSo` if the run doesn't fulfil a condition. Else it
/// is the status of a fault, as of `record_run`. Which it is, is reported in one line, and nothing is written before that is known.
pub fn shrink_run<R: Clock + Eprint + AllocGlobal, W: WholeSink, P: OutputSink, O: Sink, E: Sink>(
    rt: &R,
    given: &GivenRun<'_, '_>,
    plan: &ShrinkPlan<'_>,
    files: &mut RecordFiles<W, P>,
    out: &mut O,
    faults: &mut E,
) -> Result<Shrunk, ExitStatus>
    requires writes { W.broken files.old.trace ≡ false }
    requires puts { P.broken files.old.outputs ≡ false }
    requires prints { O.broken out.old ≡ false }
    requires reports { E.broken faults.old ≡ false }
    // The run with the trace is shrunk: the trace of what it is shrunk to was written, what its threads printed, and the lines with the list.
    ensures done { IfOk result (λ shrunk. RecordsShrunk (tellings (telling W.written W.broken W.called W.cause) (telling P.taken P.broken P.called P.cause) O.written O.broken)
        shrunk.trace shrunk.is_minimal given.now.image.now plan.now given.now.trace.now (devices files.old.trace files.old.outputs out.old) (devices files.new.trace files.new.outputs out.new)) }
    ensures whole { OnOk result (W.whole files.new.trace ≡ true) }
    ensures quiet { OnOk result (faults.new ≡ faults.old) }
    ensures stopped { IfErr result (λ status. StopsShrink (tellings (telling W.written W.broken W.called W.cause) (telling P.taken P.broken P.called P.cause) O.written O.broken)
        status given.now.image.now plan.now given.now.trace.now (devices files.old.trace files.old.outputs out.old) (devices files.new.trace files.new.outputs out.new)
        (writer_of (E.written faults.old) (E.written faults.new) (E.broken faults.new))) }
    ensures homes { (W.home files.new.trace ≡ W.home files.old.trace) × (P.home files.new.outputs ≡ P.home files.old.outputs) }
{
    let GivenRun { image, trace } = *given;
    let alloc = rt.alloc();
    let found = match seek(rt, alloc, image, trace, plan) {
        Ok(found) => found,
        Err(why) => return Err(refused(faults, &why, plan)),
    };
    if write_all(out, found.lines.as_bytes()).is_err() {
        return Err(refused(faults, &Refusal::Fault(RecordFault::Lines), plan));
    }
    let list = found.list.as_str();
    let how = &by_list(&plan.record, list);
    let recording = Recording { image, plan: how };
    let recorded = record_by_list(rt, &recording, list, files, out, faults)?;
    Ok(Shrunk {
        trace: recorded,
        is_minimal: found.is_minimal,
    })
}
