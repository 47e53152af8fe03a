//! `ir explore --within` with a trace: the first outcome of a guest that another guest doesn't have is recorded.

ghost use Rattle.std.specs.Prelude.{◌≡◌, ◌⊎◌, IfErr, OnOk, false, option_map};
ghost use Rattle.std.specs.String.{string_bytes};
ghost use Rattle.ir_files.specs.Writers.{writer_of};
ghost use Rattle.ir_within.specs.Plans.{comparison_of};
ghost use Rattle.ir_commands.specs.Files.{LacksGuest};
ghost use Rattle.ir_commands.specs.Outside.{FindsOutside, IsComparisonAnswer, IsComparisonAnswerTo, IsOutsideFound, MissesOutside, OutsideFile, RefusesEither, TellsNoneOutside};
ghost use Rattle.ir_commands.specs.Searching.{TellsNoSearch};
ghost use Rattle.ir_commands.specs.Writing.{storing};

use crate::ends::tell_ends;
use crate::recording::{Places, RecordingPaths, loses_input, output_places, recorded_into};
use crate::sought::RunSought;
use crate::surroundings::Surroundings;
use crate::within::{both_images, compared_files, comparison_plan};
use ir_arguments::OutsideArguments;
use ir_files::{ExitStatus, Folder, OutputSink, WholeSink};
use ir_record_command::RecordFiles;
use ir_search::Observer;
use ir_stream::Sink;
use ir_trace::Trace;
use ir_within::{WithinPlan, outside_run};
use std::time::Clock;

// The files of the recording.
fn paths(arguments: &OutsideArguments) -> RecordingPaths<'_>
    ensures trace { result.trace.now ≡ string_bytes arguments.now.trace }
    ensures output { option_map (λ prefix. prefix.now) result.output ≡ arguments.now.output }
{
    let (within, output) = (&arguments.within, &arguments.output);
    let explore = &within.explore;
    RecordingPaths {
        other: Some(&within.other),
        ..RecordingPaths::new(&explore.image, &arguments.trace, &explore.input, output)
    }
}

// A run of a guest that is looked for: its outcome is the first that another guest doesn't have.
#[derive(Clone, Copy)]
struct Outside<'a, 'b, R, G> {
    rt: &'b R,
    plan: &'a WithinPlan<'a, 'a, 'a, G>,
}

impl<R: Clock + Eprint + AllocGlobal, G: Observer> RunSought for Outside<'_, '_, R, G> {
    type Run = Trace;

    ghost trace_of = { λ recorded. recorded };

    ghost is_found = { λ sought recorded reports. IsOutsideFound (comparison_of sought.plan.now) recorded };

    ghost is_missed = { λ sought answered out reports. TellsNoneOutside (comparison_of sought.plan.now) answered out ⊎ TellsNoSearch
        (LacksGuest (comparison_of sought.plan.now).image sought.plan.now.explore.profile ⊎ LacksGuest (comparison_of sought.plan.now).other sought.plan.now.explore.profile)
        (IsComparisonAnswer (comparison_of sought.plan.now)) answered out reports };

    fn recorded<W: WholeSink, P: OutputSink, O: Sink, E: Sink>(
        &self,
        files: &mut RecordFiles<W, P>,
        out: &mut O,
        faults: &mut E,
    ) -> Result<Trace, ExitStatus> {
        outside_run(self.rt, self.plan, files, out, faults)
    }
}

// The trace of a run with the first outcome that is outside; its files are written. If none is known to be, the exit status.
fn outside_by<R: Clock + Eprint + AllocGlobal, D: Folder, G: Observer, O: Sink, E: Sink>(
    around: &Surroundings<'_, R, D, G>,
    arguments: &OutsideArguments,
    out: &mut O,
    faults: &mut E,
) -> Result<Trace, ExitStatus>
    requires writes { O.broken out.old ≡ false }
    requires reports { E.broken faults.old ≡ false }
    ensures found { OnOk result (FindsOutside (D.bytes_at around.now.folder.now)
        (storing D.known D.known_closed (D.knows around.now.folder.now) (D.was_put around.now.folder.now)) arguments.now
        (writer_of (O.written out.old) (O.written out.new) (O.broken out.new))) }
    ensures none { IfErr result (λ answered. MissesOutside (D.bytes_at around.now.folder.now) arguments.now answered
        (writer_of (O.written out.old) (O.written out.new) (O.broken out.new)) ⊎ TellsNoSearch (RefusesEither (D.bytes_at around.now.folder.now) arguments.now)
        (IsComparisonAnswerTo (D.bytes_at around.now.folder.now) arguments.now) answered (writer_of (O.written out.old) (O.written out.new) (O.broken out.new))
        (writer_of (E.written faults.old) (E.written faults.new) (E.broken faults.new))) }
{
    let (rt, folder, within) = (around.rt, around.folder, &arguments.within);
    let alloc = rt.alloc();
    let paths = paths(arguments);
    if loses_input(folder, faults, &paths) {
        return Err(ExitStatus::BadArguments);
    }
    let files = compared_files(alloc, folder, within, faults)?;
    let both = both_images(alloc, &files);
    let input = files.guest.input.as_slice();
    let plan = comparison_plan(around, within, &both, input, faults)?;
    let outputs = output_places(alloc, folder, faults, &paths, &both.0)?;
    let places = Places::new(paths.trace, &outputs);
    let sought = Outside { rt, plan: &plan };
    recorded_into(around, places, &sought, out, faults)
}

// Compares the outcomes of the guests in two files, and records a run with the first that is outside into a third, and what its threads print into others
// where they are asked for.
pub fn outside_file<R: Clock + Eprint + AllocGlobal, D: Folder, G: Observer, O: Sink, E: Sink>(
    around: &Surroundings<'_, R, D, G>,
    arguments: &OutsideArguments,
    explains: bool,
    out: &mut O,
    faults: &mut E,
) -> ExitStatus
    requires writes { O.broken out.old ≡ false }
    requires reports { E.broken faults.old ≡ false }
    ensures { OutsideFile (D.bytes_at around.now.folder.now) (storing D.known D.known_closed (D.knows around.now.folder.now) (D.was_put around.now.folder.now))
        arguments.now result (writer_of (O.written out.old) (O.written out.new) (O.broken out.new)) (writer_of (E.written faults.old) (E.written faults.new) (E.broken faults.new)) }
{
    match outside_by(around, arguments, out, faults) {
        Ok(recorded) => {
            if explains {
                tell_ends(around.rt.alloc(), &recorded, faults);
            }
            ExitStatus::NotSo
        }
        Err(status) => status,
    }
}
