//! `ir explore --until`: the first outcome that fulfils conditions is recorded.

ghost use Rattle.std.specs.Prelude.{◌≡◌, ◌++◌, ℕ, List, [], false, true, map, Some, None, Ok, Err, option_map, IfOk, IfErr, OnOk};
ghost use Rattle.std.specs.Io.KnownBytes.{Appends};
ghost use Rattle.ir_schedule.specs.Conditions.{as_condition};
ghost use Rattle.ir_files.specs.Outputs.{output_writer_of, TookEach};
ghost use Rattle.ir_files.specs.Writers.{Writer, Took, writer_of};
ghost use Rattle.ir_record_command.specs.Faults.{RefusesRecord};
ghost use Rattle.ir_record_command.specs.Recording.{recording_lines};
ghost use Rattle.ir_record_command.specs.Stopping.{telling, tellings, devices};
ghost use Rattle.ir_record_command.specs.declared.record_fault.RecordFault.{RecordFault};
ghost use Rattle.ir_image.specs.Guest.{guest_at};
ghost use Rattle.ir_thread.specs.State.{IsAllowed};
ghost use Rattle.ir_trace.specs.Encoding.{encoding};
ghost use Rattle.ir_explore.specs.Faults.{HasNoGuest};
ghost use Rattle.ir_explore.specs.Texts.{known_of};
ghost use Rattle.ir_explore.specs.Until.{recording, found_bytes, IsSought, IsUntilText, IsUntil, IsOutcomeFinding, HasNoAnswer, StopsUntil};
ghost use Rattle.ir_explore.specs.declared.fault.ExploreFault.{ExploreFault};
ghost use Rattle.ir_explore.specs.Plan.{ExplorePlan};

use crate::answer::{hit_text, known_text, stopped_text, vain_status_of};
use crate::fault::ExploreFault;
use crate::plan::{ExplorePlan, UntilPlan};
use crate::seek::{Sought, seek};
use ir_files::{ExitStatus, OutputSink, WholeSink, tell};
use ir_image::Image;
use ir_record_command::{
    ParsedImage, RecordFault, RecordFiles, RecordPlan, Recording, record_by_list,
};
use ir_search::Observer;
use ir_stream::{Sink, write_all};
use ir_thread::MOST_BUDGET;
use ir_trace::Trace;
use std::alloc::{AllocError, Global};
use std::time::Clock;

// How an outcome is recorded by a list.
fn recording<'a>(plan: &ExplorePlan<'a>, list: Option<&'a str>) -> RecordPlan<'a>
    ensures { result ≡ recording plan.now (option_map (λ s. s.now) list.entry) }
{
    RecordPlan {
        order: list,
        budget: MOST_BUDGET,
        random: plan.random,
        input: plan.input,
        profile: plan.profile,
    }
}

// Why a guest isn't explored, by why it isn't recorded.
fn refusal_of(why: RecordFault) -> ExploreFault
    ensures { (image : List ℕ) (plan : ExplorePlan) (w : Writer) → RefusesRecord why image (recording plan None) → Took w [] → HasNoGuest result image plan w }
{
    match why {
        RecordFault::Image(why) => ExploreFault::Image(why),
        RecordFault::TooLarge => ExploreFault::TooLarge,
        // With a profile and no list nothing else refuses it.
        _ => ExploreFault::NoMem,
    }
}

/// The guest, if it is explored.
pub fn guest_of<'a>(
    image: &'a ParsedImage<'_>,
    explore: &ExplorePlan<'_>,
) -> Result<&'a Image, ExploreFault>
    ensures exact { IfOk result (λ guest. guest_at image.now ≡ Ok guest.now) }
    ensures allowed { IfOk result (λ guest. IsAllowed explore.now.profile guest.now) }
    ensures refused { IfErr result (λ e. (w : Writer) → Took w [] → HasNoGuest e image.now explore.now w) }
{
    match image.allowed(&recording(explore, None)) {
        Ok(guest) => Ok(guest),
        Err(why) => Err(refusal_of(why)),
    }
}

// What is written, and the list of the outcome that was found, or the exit status if none was.
#[derive(Drop)]
struct Told {
    text: Vec<u8>,
    found: Result<String, ExitStatus>,
}

// What is written of what was looked for.
fn sought_text<W>(
    alloc: Global,
    image: &Image,
    plan: &UntilPlan<'_, '_, '_, W>,
    sought: &Sought<'_>,
) -> Result<Told, AllocError>
    requires allowed { IsAllowed plan.now.explore.profile image.now }
    requires sought { IsSought image.now plan.now.explore (map as_condition plan.now.conditions.now) (known_of sought.now.explored) sought.now.first }
    ensures { IfOk result (λ told. IsUntilText image.now plan.now.explore (map as_condition plan.now.conditions.now) (found_bytes told.found) told.text.items) }
{
    let explored = &sought.explored;
    match sought.first {
        Some(place) => {
            let (text, list) = hit_text(alloc, image, &plan.explore, explored, place)?;
            Ok(Told {
                text,
                found: Ok(list),
            })
        }
        None => {
            let (text, _) = known_text(alloc, image, &plan.explore, explored)?;
            Ok(Told {
                text,
                found: Err(vain_status_of(explored.ended)),
            })
        }
    }
}

// What is written about a guest.
fn text_about<W: Observer>(
    alloc: Global,
    image: &Image,
    plan: &UntilPlan<'_, '_, '_, W>,
) -> Result<Told, AllocError>
    requires { IsAllowed plan.now.explore.profile image.now }
    ensures { IfOk result (λ told. IsUntilText image.now plan.now.explore (map as_condition plan.now.conditions.now) (found_bytes told.found) told.text.items) }
{
    match seek(alloc, image, plan) {
        Ok(sought) => sought_text(alloc, image, plan, &sought),
        Err(why) => {
            let (text, answered) = stopped_text(alloc, why)?;
            Ok(Told {
                text,
                found: Err(answered),
            })
        }
    }
}

// Writes it: the list of the outcome that was found, or the exit status if none was.
fn tell_sought<W: Observer, O: Sink>(
    alloc: Global,
    plan: &UntilPlan<'_, '_, '_, W>,
    out: &mut O,
) -> Result<Result<String, ExitStatus>, ExploreFault>
    requires { O.broken out.old ≡ false }
    ensures told { IfOk result (λ found. (text : List ℕ) × IsUntil plan.now.image.now plan.now.explore (map as_condition plan.now.conditions.now) (found_bytes found) text
        × Appends (O.written out.old) (O.written out.new) text) }
    ensures works { OnOk result (O.broken out.new ≡ false) }
    ensures fails { IfErr result
        (λ e. HasNoAnswer e plan.now.image.now plan.now.explore (map as_condition plan.now.conditions.now)
        (writer_of (O.written out.old) (O.written out.new) (O.broken out.new))) }
{
    let guest = match guest_of(plan.image, &plan.explore) {
        Ok(guest) => guest,
        Err(why) => return Err(why),
    };
    let Told { text, found } = text_about(alloc, guest, plan)?;
    write_all(out, text.as_slice())?;
    Ok(found)
}

/// Looks for the first outcome of a guest that fulfils each condition, and records a run that has it. The outcomes up to that one are written, then
/// which one it is, with a list that spells the order of the run, and then all that `record_by_list` writes of the recording by that list. What was
/// recorded is handed back. The observer of the plan is told how far the search is.
///
/// # Errors
/// The exit status. It is `NotSo` if the search was over and none was found, and `GaveUp` if the search stopped before: what `explore_run` writes
/// is written, and nothing is recorded. Else it is the status of a fault, which is reported in one line.
pub fn explore_until<R, V, W, P, O, E>(
    rt: &R,
    plan: &UntilPlan<'_, '_, '_, V>,
    files: &mut RecordFiles<W, P>,
    out: &mut O,
    faults: &mut E,
) -> Result<Trace, ExitStatus>
where
    R: Clock + AllocGlobal,
    V: Observer,
    W: WholeSink,
    P: OutputSink,
    O: Sink,
    E: Sink,
    requires writes { W.broken files.old.trace ≡ false }
    requires puts { P.broken files.old.outputs ≡ false }
    requires prints { O.broken out.old ≡ false }
    requires reports { E.broken faults.old ≡ false }
    // The outcomes up to the first that fulfils each condition were written, and of the run that is told of that one its trace, what its threads
    // printed, and their lines. No fault is reported.
    ensures found { IfOk result
        (λ recorded. (text list : List ℕ) × (printed : List (List ℕ))
        × IsOutcomeFinding plan.now.image.now plan.now.explore (map as_condition plan.now.conditions.now) list text recorded printed
        × Appends (W.written files.old.trace) (W.written files.new.trace) (encoding recorded)
        × TookEach (output_writer_of (P.taken files.old.outputs) (P.taken files.new.outputs) (P.broken files.new.outputs)) printed
        × Appends (O.written out.old) (O.written out.new) (text ++ recording_lines recorded)) }
    ensures whole { OnOk result (W.whole files.new.trace ≡ true) }
    ensures quiet { OnOk result (faults.new ≡ faults.old) }
    // Else there is none, which is written and nothing else; or nothing is, or that failed; or what was found is told, and its recording stopped.
    ensures stopped { IfErr result (λ status. StopsUntil (tellings (telling W.written W.broken W.called W.cause) (telling P.taken P.broken P.called P.cause) O.written O.broken)
        status plan.now.image.now plan.now.explore (map as_condition plan.now.conditions.now)
        (devices files.old.trace files.old.outputs out.old) (devices files.new.trace files.new.outputs out.new)
        (writer_of (E.written faults.old) (E.written faults.new) (E.broken faults.new)) (faults.new ≡ faults.old)) }
    // The files are those of the same places.
    ensures homes { (W.home files.new.trace ≡ W.home files.old.trace) × (P.home files.new.outputs ≡ P.home files.old.outputs) }
{
    let list = match tell_sought(rt.alloc(), plan, out) {
        Ok(Ok(list)) => list,
        Ok(Err(answered)) => return Err(answered),
        Err(why) => {
            tell(faults, why.words());
            return Err(why.status());
        }
    };
    let list = list.as_str();
    let how = recording(&plan.explore, Some(list));
    let recording = Recording {
        image: plan.image,
        plan: &how,
    };
    let recorded = record_by_list(rt, &recording, list, files, out, faults)?;
    Ok(recorded)
}
