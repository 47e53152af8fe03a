//! `ir hunt`: the first of many seeds whose run fulfils conditions is recorded.

ghost use Rattle.std.specs.Prelude.{◌≡◌, ◌⊎◌, IfErr, IfOk, OnErr, OnOk, false, true, option_map};
ghost use Rattle.std.specs.Io.KnownBytes.{Appends};
ghost use Rattle.std.specs.String.{string_bytes};
ghost use Rattle.ir_files.specs.Outputs.{TookEach, output_writer_of};
ghost use Rattle.ir_files.specs.Writers.{writer_of};
ghost use Rattle.ir_files.specs.declared.exit_status.ExitStatus.TheVariants as exit;
ghost use Rattle.ir_commands.specs.Files.{GoesOn};
ghost use Rattle.ir_commands.specs.Searching.{EndsFound, HuntsFile, IsHuntAnswerTo, MissesSeed, RecordsHunted, RefusesFound, RefusesSearch, ShrinksFound, StopsFound, TellsNoSearch};
ghost use Rattle.ir_commands.specs.Writing.{KeptAt, storing, texts_of_paths};

use crate::conditions::texts_of;
use crate::ends::recorded_status;
use crate::recording::{Places, RecordingPaths, record_files, recorded_into};
use crate::search_files::{SearchFiles, image_of};
use crate::shrink::{Shrinking, plan_like, shrunk_status};
use crate::surroundings::Surroundings;
use ir_arguments::HuntArguments;
use ir_files::{ExitStatus, Folder, OutputSink, WholeSink};
use ir_hunt::{HuntPlan, hunt_run};
use ir_record_command::{ParsedImage, RecordFiles};
use ir_shrink::{ShrinkPlan, Shrunk};
use ir_stream::Sink;
use ir_trace::Trace;
use std::thread::Threads;
use std::time::Clock;

// The files of a hunt.
fn paths(arguments: &HuntArguments) -> RecordingPaths<'_>
    ensures image { result.image.now ≡ string_bytes arguments.now.image }
    ensures trace { result.trace.now ≡ string_bytes arguments.now.trace }
    ensures input { result.input.now ≡ arguments.now.options.input }
    ensures output { option_map (λ prefix. prefix.now) result.output ≡ arguments.now.options.output }
{
    let (options, trace) = (&arguments.options, &arguments.trace);
    RecordingPaths::new(&arguments.image, trace, &options.input, &options.output)
}

// What is hunted, and as which arguments say.
#[derive(Clone, Copy)]
struct Hunted<'a> {
    image: &'a ParsedImage<'a>,
    plan: &'a HuntPlan<'a>,
    arguments: &'a HuntArguments,
}

// Hunts for a run, and records it into these files.
fn hunted_in<R, W, P, O, E>(
    rt: &R,
    hunted: Hunted<'_>,
    files: &mut RecordFiles<W, P>,
    out: &mut O,
    faults: &mut E,
) -> Result<Trace, ExitStatus>
where
    R: Threads + Sync + Clock + Eprint + AllocGlobal,
    W: WholeSink,
    P: OutputSink,
    O: Sink,
    E: Sink,
    requires writes { W.broken files.old.trace ≡ false }
    requires puts { P.broken files.old.outputs ≡ false }
    requires prints { O.broken out.old ≡ false }
    requires reports { E.broken faults.old ≡ false }
    ensures found { IfOk result (λ recorded. RecordsHunted hunted.entry.image.now hunted.entry.plan.now recorded
        (λ bytes printed. Appends (W.written files.old.trace) (W.written files.new.trace) bytes
        × TookEach (output_writer_of (P.taken files.old.outputs) (P.taken files.new.outputs) (P.broken files.new.outputs)) printed)
        (writer_of (O.written out.old) (O.written out.new) (O.broken out.new)) (writer_of (E.written faults.old) (E.written faults.new) (E.broken faults.new))) }
    ensures none { IfErr result (λ answered. MissesSeed hunted.entry.image.now hunted.entry.plan.now answered
        (writer_of (O.written out.old) (O.written out.new) (O.broken out.new)) (writer_of (E.written faults.old) (E.written faults.new) (E.broken faults.new))) }
    ensures whole { OnOk result (W.whole files.new.trace ≡ true) }
    ensures home { W.home files.new.trace ≡ W.home files.old.trace }
    ensures places { P.home files.new.outputs ≡ P.home files.old.outputs }
{
    hunt_run(rt, hunted.image, hunted.plan, files, out, faults)
}

// The same, into files at these paths. It isn't a `RunSought`, because what it sends to threads needs the bounds of a function.
fn hunted_into<R, D, G, O, E>(
    around: &Surroundings<'_, R, D, G>,
    places: Places<'_, '_>,
    hunted: Hunted<'_>,
    out: &mut O,
    faults: &mut E,
) -> Result<Trace, ExitStatus>
where
    R: Threads + Sync + Clock + Eprint + AllocGlobal,
    D: Folder,
    O: Sink,
    E: Sink,
    requires writes { O.broken out.old ≡ false }
    requires reports { E.broken faults.old ≡ false }
    ensures found { IfOk result (λ recorded. RecordsHunted hunted.entry.image.now hunted.entry.plan.now recorded
        (KeptAt (storing D.known D.known_closed (D.knows around.now.folder.now) (D.was_put around.now.folder.now)) places.entry.trace.now (texts_of_paths places.entry.outputs))
        (writer_of (O.written out.old) (O.written out.new) (O.broken out.new)) (writer_of (E.written faults.old) (E.written faults.new) (E.broken faults.new))) }
    ensures none { IfErr result (λ answered. MissesSeed hunted.entry.image.now hunted.entry.plan.now answered
        (writer_of (O.written out.old) (O.written out.new) (O.broken out.new)) (writer_of (E.written faults.old) (E.written faults.new) (E.broken faults.new))) }
{
    let Surroundings { rt, folder, .. } = *around;
    let mut files = record_files(rt.alloc(), folder, places.trace, places.outputs);
    hunted_in(rt, hunted, &mut files, out, faults)
}

// Shrinks a run that was found, whose trace and outputs go into files at these paths, over what was found.
fn shrunk<'a, R: Threads + Sync + Clock + Eprint + AllocGlobal, D: Folder, G, O: Sink, E: Sink>(
    around: &Surroundings<'_, R, D, G>,
    places: Places<'_, '_>,
    hunted: Hunted<'a>,
    found: &'a Trace,
    out: &mut O,
    faults: &mut E,
) -> Result<Shrunk, ExitStatus>
    requires writes { O.broken out.old ≡ false }
    requires reports { E.broken faults.old ≡ false }
    ensures done { IfOk result (λ shrunk. ShrinksFound hunted.entry.image.now hunted.entry.plan.now found.now shrunk.is_minimal
        (KeptAt (storing D.known D.known_closed (D.knows around.now.folder.now) (D.was_put around.now.folder.now)) places.entry.trace.now (texts_of_paths places.entry.outputs))
        (writer_of (O.written out.old) (O.written out.new) (O.broken out.new))) }
    ensures stopped { IfErr result (λ answered. RefusesFound hunted.entry.image.now hunted.entry.plan.now found.now answered
        (writer_of (O.written out.old) (O.written out.new) (O.broken out.new)) (writer_of (E.written faults.old) (E.written faults.new) (E.broken faults.new))
        ⊎ StopsFound hunted.entry.image.now hunted.entry.plan.now found.now answered (writer_of (O.written out.old) (O.written out.new) (O.broken out.new))) }
    ensures grows { OnOk result (GoesOn (E.written faults.old) (E.written faults.new)) }
{
    let until = hunted.arguments.until.as_slice();
    let texts = texts_of(around.rt.alloc(), faults, until)?;
    let plan = hunted.plan;
    let shrinking = ShrinkPlan {
        record: plan_like(found, plan.record.random, plan.record.input),
        conditions: plan.conditions,
        texts: texts.as_slice(),
        stale: plan.stale,
        seconds: plan.seconds,
        is_shown: plan.is_shown,
    };
    let sought = Shrinking {
        rt: around.rt,
        image: hunted.image,
        trace: found,
        plan: &shrinking,
    };
    recorded_into(around, places, &sought, out, faults)
}

// The exit status of the shrinking of a run that was found.
fn shrunk_found<'a, R, D, G, O, E>(
    around: &Surroundings<'_, R, D, G>,
    places: Places<'_, '_>,
    hunted: Hunted<'a>,
    found: &'a Trace,
    out: &mut O,
    faults: &mut E,
) -> ExitStatus
where
    R: Threads + Sync + Clock + Eprint + AllocGlobal,
    D: Folder,
    O: Sink,
    E: Sink,
    ensures { EndsFound hunted.entry.image.now hunted.entry.plan.now found.now
        (KeptAt (storing D.known D.known_closed (D.knows around.now.folder.now) (D.was_put around.now.folder.now)) places.entry.trace.now (texts_of_paths places.entry.outputs)) result
        (writer_of (O.written out.old) (O.written out.new) (O.broken out.new)) (writer_of (E.written faults.old) (E.written faults.new) (E.broken faults.new)) }
{
    if out.failed() || faults.failed() {
        return ExitStatus::Failed;
    }
    let explains = hunted.plan.is_shown;
    match shrunk(around, places, hunted, found, out, faults) {
        Ok(shrunk) => shrunk_status(around.rt.alloc(), explains, &shrunk, faults),
        Err(status) => status,
    }
}

// The exit status of a hunt. What was found is shrunk, if that is asked for.
fn ended<R, D, G, O, E>(
    around: &Surroundings<'_, R, D, G>,
    places: Places<'_, '_>,
    hunted: Hunted<'_>,
    found: Result<Trace, ExitStatus>,
    out: &mut O,
    faults: &mut E,
) -> ExitStatus
where
    R: Threads + Sync + Clock + Eprint + AllocGlobal,
    D: Folder,
    O: Sink,
    E: Sink,
    ensures stopped { IfErr found (λ status. result ≡ status) }
    ensures quiet { OnErr found (out.new ≡ out.old) }
    ensures kept { OnErr found (faults.new ≡ faults.old) }
    ensures done { hunted.entry.arguments.now.shrinks ≡ false → OnOk found ((result ≡ exit.Done) × (out.new ≡ out.old) × GoesOn (E.written faults.old) (E.written faults.new)) }
    ensures shrunk { hunted.entry.arguments.now.shrinks ≡ true → IfOk found (λ given. EndsFound hunted.entry.image.now hunted.entry.plan.now given
        (KeptAt (storing D.known D.known_closed (D.knows around.now.folder.now) (D.was_put around.now.folder.now)) places.entry.trace.now (texts_of_paths places.entry.outputs)) result
        (writer_of (O.written out.old) (O.written out.new) (O.broken out.new)) (writer_of (E.written faults.old) (E.written faults.new) (E.broken faults.new))) }
{
    match found {
        Ok(found) => {
            if hunted.arguments.shrinks {
                shrunk_found(around, places, hunted, &found, out, faults)
            } else {
                let explains = hunted.plan.is_shown;
                recorded_status(around.rt.alloc(), Ok(found), explains, faults)
            }
        }
        Err(status) => status,
    }
}

// Hunts for a run of a guest; the exit status.
fn hunted_by<R: Threads + Sync + Clock + Eprint + AllocGlobal, D: Folder, G, O: Sink, E: Sink>(
    around: &Surroundings<'_, R, D, G>,
    arguments: &HuntArguments,
    explains: bool,
    out: &mut O,
    faults: &mut E,
) -> Result<ExitStatus, ExitStatus>
    requires writes { O.broken out.old ≡ false }
    requires reports { E.broken faults.old ≡ false }
    ensures done { IfOk result (λ answered. HuntsFile (D.bytes_at around.now.folder.now)
        (storing D.known D.known_closed (D.knows around.now.folder.now) (D.was_put around.now.folder.now))
        arguments.now answered (writer_of (O.written out.old) (O.written out.new) (O.broken out.new)) (writer_of (E.written faults.old) (E.written faults.new) (E.broken faults.new))) }
    ensures stopped { IfErr result (λ answered. TellsNoSearch (RefusesSearch (D.bytes_at around.now.folder.now (string_bytes arguments.now.image)) arguments.now.options.profile
        arguments.now.until.items) (IsHuntAnswerTo (D.bytes_at around.now.folder.now) arguments.now) answered (writer_of (O.written out.old) (O.written out.new) (O.broken out.new))
        (writer_of (E.written faults.old) (E.written faults.new) (E.broken faults.new))) }
{
    let paths = paths(arguments);
    let image = image_of(around, faults, &paths)?;
    let image = ParsedImage::new(around.rt.alloc(), image.as_slice());
    let files = SearchFiles::of(around, faults, &paths, &image, arguments.until.as_slice())?;
    let plan = HuntPlan {
        record: arguments.options.plan(None, files.input.as_slice()),
        way: arguments.way,
        seeds: arguments.seeds,
        conditions: files.conditions.as_slice(),
        stale: arguments.stale,
        jobs: arguments.jobs,
        seconds: arguments.seconds,
        is_shown: explains,
    };
    let hunted = Hunted {
        image: &image,
        plan: &plan,
        arguments,
    };
    let places = Places::new(paths.trace, &files.outputs);
    let found = hunted_into(around, places, hunted, out, faults);
    Ok(ended(around, places, hunted, found, out, faults))
}

// Hunts for a run of a guest, and records it into a file, and what its threads print into others where they are asked for. What was found is shrunk,
// if that is asked for.
pub fn hunt_file<R, D, G, O, E>(
    around: &Surroundings<'_, R, D, G>,
    arguments: &HuntArguments,
    explains: bool,
    out: &mut O,
    faults: &mut E,
) -> ExitStatus
where
    R: Threads + Sync + Clock + Eprint + AllocGlobal,
    D: Folder,
    O: Sink,
    E: Sink,
    requires writes { O.broken out.old ≡ false }
    requires reports { E.broken faults.old ≡ false }
    ensures { HuntsFile (D.bytes_at around.now.folder.now) (storing D.known D.known_closed (D.knows around.now.folder.now) (D.was_put around.now.folder.now))
        arguments.now result (writer_of (O.written out.old) (O.written out.new) (O.broken out.new)) (writer_of (E.written faults.old) (E.written faults.new) (E.broken faults.new)) }
{
    match hunted_by(around, arguments, explains, out, faults) {
        Ok(status) => status,
        Err(status) => status,
    }
}
