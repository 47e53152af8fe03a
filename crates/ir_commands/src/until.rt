//! `ir explore --until`: the first outcome that fulfils conditions is recorded.

ghost use Rattle.std.specs.Prelude.{◌≡◌, ◌⊎◌, IfErr, OnOk, false, option_map};
ghost use Rattle.std.specs.String.{string_bytes};
ghost use Rattle.ir_files.specs.Writers.{writer_of};
ghost use Rattle.ir_commands.specs.Searching.{IsRunFound, IsSearchAnswerTo, RefusesUntil, SearchFinds, SearchesFile, SearchMisses, TellsNoSearch, UntilMisses};
ghost use Rattle.ir_commands.specs.Writing.{storing};

use crate::ends::recorded_status;
use crate::explore::plan_of;
use crate::recording::{Places, RecordingPaths, recorded_into};
use crate::search_files::{SearchFiles, image_of};
use crate::sought::RunSought;
use crate::surroundings::Surroundings;
use ir_arguments::UntilArguments;
use ir_explore::{HangPlan, UntilPlan, explore_hang, explore_until};
use ir_files::{ExitStatus, Folder, OutputSink, WholeSink};
use ir_record_command::{ParsedImage, RecordFiles};
use ir_search::Observer;
use ir_stream::Sink;
use ir_trace::Trace;
use std::time::Clock;

// The files of the recording.
fn paths(arguments: &UntilArguments) -> RecordingPaths<'_>
    ensures image { result.image.now ≡ string_bytes arguments.now.explore.image }
    ensures trace { result.trace.now ≡ string_bytes arguments.now.trace }
    ensures input { result.input.now ≡ arguments.now.explore.input }
    ensures output { option_map (λ prefix. prefix.now) result.output ≡ arguments.now.output }
{
    let (explore, output) = (&arguments.explore, &arguments.output);
    RecordingPaths::new(&explore.image, &arguments.trace, &explore.input, output)
}

// A run of a guest that is looked for: it hangs, or has an outcome that fulfils conditions.
#[derive(Clone, Copy)]
struct Until<'a, 'b, R, G> {
    rt: &'b R,
    plan: &'a UntilPlan<'a, 'a, 'a, G>,
    hang: bool,
}

impl<R: Clock + Eprint + AllocGlobal, G: Observer> RunSought for Until<'_, '_, R, G> {
    type Run = Trace;

    ghost trace_of = { λ recorded. recorded };

    ghost is_found = { λ sought recorded reports. IsRunFound sought.hang sought.plan.now.image.now sought.plan.now.explore sought.plan.now.conditions.now recorded };

    ghost is_missed = { λ sought answered out reports. UntilMisses sought.hang sought.plan.now.image.now sought.plan.now.explore sought.plan.now.conditions.now answered out reports };

    fn recorded<W: WholeSink, P: OutputSink, O: Sink, E: Sink>(
        &self,
        files: &mut RecordFiles<W, P>,
        out: &mut O,
        faults: &mut E,
    ) -> Result<Trace, ExitStatus> {
        if self.hang {
            let plan = self.plan;
            let hang = HangPlan {
                image: plan.image,
                explore: plan.explore.within(plan.explore.most()),
                observer: plan.observer,
            };
            explore_hang(self.rt, &hang, files, out, faults)
        } else {
            explore_until(self.rt, self.plan, files, out, faults)
        }
    }
}

// The trace of a run with the outcome that is looked for, or of one that hangs; its files are written. If there is none, the exit status.
fn found_by<R: Clock + Eprint + AllocGlobal, D: Folder, G: Observer, O: Sink, E: Sink>(
    around: &Surroundings<'_, R, D, G>,
    arguments: &UntilArguments,
    out: &mut O,
    faults: &mut E,
) -> Result<Trace, ExitStatus>
    requires writes { O.broken out.old ≡ false }
    requires reports { E.broken faults.old ≡ false }
    ensures found { OnOk result (SearchFinds (D.bytes_at around.now.folder.now)
        (storing D.known D.known_closed (D.knows around.now.folder.now) (D.was_put around.now.folder.now)) arguments.now
        (writer_of (O.written out.old) (O.written out.new) (O.broken out.new))) }
    ensures none { IfErr result (λ answered. SearchMisses (D.bytes_at around.now.folder.now) arguments.now answered
        (writer_of (O.written out.old) (O.written out.new) (O.broken out.new)) ⊎ TellsNoSearch (RefusesUntil (D.bytes_at around.now.folder.now) arguments.now)
        (IsSearchAnswerTo (D.bytes_at around.now.folder.now) arguments.now) answered (writer_of (O.written out.old) (O.written out.new) (O.broken out.new))
        (writer_of (E.written faults.old) (E.written faults.new) (E.broken faults.new))) }
{
    let paths = paths(arguments);
    let image = image_of(around, faults, &paths)?;
    let image = ParsedImage::new(around.rt.alloc(), image.as_slice());
    let files = SearchFiles::of(around, faults, &paths, &image, arguments.until.as_slice())?;
    let plan = UntilPlan {
        image: &image,
        explore: plan_of(&arguments.explore, files.input.as_slice()),
        conditions: files.conditions.as_slice(),
        observer: around.gate,
    };
    let sought = Until {
        rt: around.rt,
        plan: &plan,
        hang: arguments.hang,
    };
    let places = Places::new(paths.trace, &files.outputs);
    recorded_into(around, places, &sought, out, faults)
}

// Looks for an outcome of a guest, or a run that hangs, and records such a run into a file, and what its threads print into others where they are asked
// for.
pub fn until_file<R: Clock + Eprint + AllocGlobal, D: Folder, G: Observer, O: Sink, E: Sink>(
    around: &Surroundings<'_, R, D, G>,
    arguments: &UntilArguments,
    explains: bool,
    out: &mut O,
    faults: &mut E,
) -> ExitStatus
    requires writes { O.broken out.old ≡ false }
    requires reports { E.broken faults.old ≡ false }
    ensures { SearchesFile (D.bytes_at around.now.folder.now) (storing D.known D.known_closed (D.knows around.now.folder.now) (D.was_put around.now.folder.now))
        arguments.now result (writer_of (O.written out.old) (O.written out.new) (O.broken out.new)) (writer_of (E.written faults.old) (E.written faults.new) (E.broken faults.new)) }
{
    let found = found_by(around, arguments, out, faults);
    recorded_status(around.rt.alloc(), found, explains, faults)
}
