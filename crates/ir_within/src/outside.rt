//! `ir explore --within` with a trace: the first outcome of a guest that another guest doesn't have is recorded.

ghost use Rattle.std.specs.Prelude.{◌≡◌, ◌++◌, ℕ, List, Some, false, true, IfOk, IfErr, OnOk};
ghost use Rattle.std.specs.Io.KnownBytes.{Appends};
ghost use Rattle.ir_explore.specs.Until.{recording, found_bytes};
ghost use Rattle.ir_files.specs.Outputs.{output_writer_of, TookEach};
ghost use Rattle.ir_files.specs.Writers.{writer_of};
ghost use Rattle.ir_record_command.specs.Recording.{recording_lines};
ghost use Rattle.ir_record_command.specs.Stopping.{telling, tellings, devices};
ghost use Rattle.ir_trace.specs.Encoding.{encoding};
ghost use Rattle.ir_within.specs.Faults.{ToldNone};
ghost use Rattle.ir_within.specs.Outside.{IsOutsideAnswer, IsOutsideRecorded, StopsOutside};
ghost use Rattle.ir_within.specs.Plans.{comparison_of};
ghost use Rattle.ir_within.specs.declared.fault.WithinFault.{WithinFault};

use crate::fault::WithinFault;
use crate::run::{Told, WithinPlan, report, told_about};
use ir_explore::ExplorePlan;
use ir_files::{ExitStatus, OutputSink, WholeSink};
use ir_record_command::{RecordFiles, RecordPlan, Recording, record_by_list};
use ir_search::Observer;
use ir_stream::{Sink, write_all};
use ir_thread::MOST_BUDGET;
use ir_trace::Trace;
use std::alloc::Global;
use std::time::Clock;

// How an outcome is recorded by its list.
fn recording<'a>(plan: &ExplorePlan<'a>, list: &'a str) -> RecordPlan<'a>
    ensures { result ≡ recording plan.now (Some list.now) }
{
    RecordPlan {
        order: Some(list),
        budget: MOST_BUDGET,
        random: plan.random,
        input: plan.input,
        profile: plan.profile,
    }
}

// Writes what is known: the list of the first outcome that is outside, or the exit status if none is known to be.
#[tactic(auto, using(crate::proofs::First::answer_for_listed))]
fn tell_outside<W: Observer, O: Sink>(
    alloc: Global,
    plan: &WithinPlan<'_, '_, '_, W>,
    out: &mut O,
) -> Result<Result<String, ExitStatus>, WithinFault>
    requires { O.broken out.old ≡ false }
    ensures told { IfOk result (λ found. (text : List ℕ) × IsOutsideAnswer (comparison_of plan.now) (found_bytes found) text × Appends (O.written out.old) (O.written out.new) text) }
    ensures works { OnOk result (O.broken out.new ≡ false) }
    ensures none { IfErr result (λ e. ToldNone e (comparison_of plan.now) (writer_of (O.written out.old) (O.written out.new) (O.broken out.new))) }
{
    let told = match told_about(alloc, plan) {
        Ok(told) => told,
        Err(why) => return Err(why),
    };
    let Told {
        text,
        verdict,
        list,
    } = told;
    write_all(out, text.as_slice())?;
    match list {
        Some(list) => Ok(Ok(list)),
        None => Ok(Err(verdict.status())),
    }
}

/// Compares the outcomes of two guests and writes what `within_run` writes. If some outcome of the guest isn't any of the other's, a run that leads to
/// the first of these is recorded, by the list of its fewest switches, and all is written that `record_by_list` writes of it. What was recorded is
/// handed back. The observer of the plan is told how far the search is.
///
/// # Errors
/// The exit status, and nothing is recorded. It is `Done` if each outcome is one of the other's, and `GaveUp` if that isn't known, because a search
/// ended before. Else it is the status of a fault, which is reported in one line.
pub fn outside_run<R, V, W, P, O, E>(
    rt: &R,
    plan: &WithinPlan<'_, '_, '_, V>,
    files: &mut RecordFiles<W, P>,
    out: &mut O,
    faults: &mut E,
) -> Result<Trace, ExitStatus>
where
    R: Clock + AllocGlobal,
    V: Observer,
    W: WholeSink,
    P: OutputSink,
    O: Sink,
    E: Sink,
    requires writes { W.broken files.old.trace ≡ false }
    requires puts { P.broken files.old.outputs ≡ false }
    requires prints { O.broken out.old ≡ false }
    requires reports { E.broken faults.old ≡ false }
    // The comparison was written, and of the run that leads to the first outcome outside its trace, what its threads printed, and their lines. No
    // fault is reported.
    ensures found { IfOk result
        (λ recorded. (text list : List ℕ) × (printed : List (List ℕ)) × IsOutsideRecorded (comparison_of plan.now) list text recorded printed
        × Appends (W.written files.old.trace) (W.written files.new.trace) (encoding recorded)
        × TookEach (output_writer_of (P.taken files.old.outputs) (P.taken files.new.outputs) (P.broken files.new.outputs)) printed
        × Appends (O.written out.old) (O.written out.new) (text ++ recording_lines recorded)) }
    ensures whole { OnOk result (W.whole files.new.trace ≡ true) }
    ensures quiet { OnOk result (faults.new ≡ faults.old) }
    // Else none is known to be outside, and the comparison was written and nothing else; or nothing is, or that failed; or the recording stopped.
    ensures stopped { IfErr result (λ status. StopsOutside (tellings (telling W.written W.broken W.called W.cause) (telling P.taken P.broken P.called P.cause) O.written O.broken)
        status (comparison_of plan.now) (devices files.old.trace files.old.outputs out.old) (devices files.new.trace files.new.outputs out.new)
        (writer_of (E.written faults.old) (E.written faults.new) (E.broken faults.new)) (faults.new ≡ faults.old)) }
    // The files are those of the same places.
    ensures homes { (W.home files.new.trace ≡ W.home files.old.trace) × (P.home files.new.outputs ≡ P.home files.old.outputs) }
{
    let list = match tell_outside(rt.alloc(), plan, out) {
        Ok(Ok(list)) => list,
        Ok(Err(answered)) => return Err(answered),
        Err(why) => {
            report(rt.alloc(), &why, faults);
            return Err(why.status());
        }
    };
    let list = list.as_str();
    let how = recording(&plan.explore, list);
    let recording = Recording {
        image: plan.image,
        plan: &how,
    };
    let recorded = record_by_list(rt, &recording, list, files, out, faults)?;
    Ok(recorded)
}
