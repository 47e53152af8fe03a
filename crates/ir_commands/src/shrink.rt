//! `ir shrink`: a recorded run is shrunk to one with fewer context switches.

ghost use Rattle.std.specs.Prelude.{◌≡◌, ◌⊎◌, None, Ok, IfErr, IfOk, IfSome, OnErr, OnOk, false, true, option_map};
ghost use Rattle.std.specs.String.{string_bytes};
ghost use Rattle.ir_files.specs.Writers.{writer_of};
ghost use Rattle.ir_files.specs.declared.exit_status.ExitStatus.TheVariants as exit;
ghost use Rattle.ir_trace.specs.Recorded.{recorded_at};
ghost use Rattle.ir_opened.specs.Answers.{IsUnfitRefusal};
ghost use Rattle.ir_files.specs.declared.exit_status.ExitStatus.{ExitStatus};
ghost use Rattle.ir_commands.specs.Files.{GoesOn, IsFileIn, IsImageIn, IsNoGuest, LacksGuest, TellsFault};
ghost use Rattle.ir_commands.specs.Searching.{IsRunShrunk, IsShrinkAnswer, PrintsUnfit, RefusesGiven, ShrinksFile, ShrinksNothing, ShrinksTo, TellsNoSearch, shrunk_status as shrunk_answer};
ghost use Rattle.ir_commands.specs.Sought.{PrintsPart};
ghost use Rattle.ir_commands.specs.Writing.{storing, IsStatusOfNoRecording};

use crate::conditions::texts_of;
use crate::ends::tell_ends;
use crate::explaining::explain_files;
use crate::files::{bytes_of, image_in, is_lost, out_of_memory, say};
use crate::recording::{Places, RecordingPaths, loses_input, recorded_into};
use crate::search_files::SearchFiles;
use crate::sought::RunSought;
use crate::surroundings::Surroundings;
use ir_arguments::ShrinkArguments;
use ir_files::{ExitStatus, Folder, MOST_FILE_BYTES, OutputSink, WholeSink};
use ir_opened::{Opened, open_fit, refuse};
use ir_past::PastErr;
use ir_record_command::{ParsedImage, RecordFiles, RecordPlan};
use ir_shrink::{GivenRun, ShrinkPlan, Shrunk, shrink_run};
use ir_stream::Sink;
use ir_trace::{Trace, read_trace};
use std::alloc::Global;
use std::time::Clock;

// The files of the recording.
fn paths(arguments: &ShrinkArguments) -> RecordingPaths<'_>
    ensures input { result.input.now ≡ arguments.now.input }
    ensures output { option_map (λ prefix. prefix.now) result.output ≡ arguments.now.output }
{
    let (input, output) = (&arguments.input, &arguments.output);
    RecordingPaths::new(&arguments.image, &arguments.out, input, output)
}

// Whether a file that is read would be lost by what is written, which is reported.
fn loses_given<D: Folder, E: Sink>(folder: &D, faults: &mut E, arguments: &ShrinkArguments) -> bool
    ensures kept { result ≡ false → faults.new ≡ faults.old }
    ensures told { result ≡ true → E.broken faults.old ≡ false → TellsFault (writer_of (E.written faults.old) (E.written faults.new) (E.broken faults.new)) }
{
    let (trace, out) = (arguments.trace.as_str(), arguments.out.as_str());
    is_lost(
        folder,
        faults,
        "OUT would be written over TRACE",
        trace,
        out,
    ) || loses_input(folder, faults, &paths(arguments))
}

// The bytes of an image and of a trace.
#[derive(Drop)]
struct Given {
    image: Vec<u8>,
    trace: Vec<u8>,
}

// The bytes of the files that are read. If there are none, or a file would be lost, that is reported.
fn given_by<R: AllocGlobal, D: Folder, G, E: Sink>(
    around: &Surroundings<'_, R, D, G>,
    faults: &mut E,
    arguments: &ShrinkArguments,
) -> Result<Given, ExitStatus>
    ensures kept { OnOk result (faults.new ≡ faults.old) }
    ensures image { IfOk result (λ given. IsImageIn (D.bytes_at around.now.folder.now (string_bytes arguments.now.image)) given.image.items) }
    ensures trace { IfOk result (λ given. IsFileIn (D.bytes_at around.now.folder.now (string_bytes arguments.now.trace)) given.trace.items) }
    ensures status { IfErr result (IsStatusOfNoRecording (IfSome (D.bytes_at around.now.folder.now (string_bytes arguments.now.image)) IsNoGuest)) }
    ensures told { OnErr result (E.broken faults.old ≡ false → TellsFault (writer_of (E.written faults.old) (E.written faults.new) (E.broken faults.new))) }
{
    let (alloc, folder) = (around.rt.alloc(), around.folder);
    if loses_given(folder, faults, arguments) {
        return Err(ExitStatus::BadArguments);
    }
    let image = image_in(alloc, folder, faults, arguments.image.as_str())?;
    let path = arguments.trace.as_str();
    match bytes_of(alloc, folder, faults, path, MOST_FILE_BYTES) {
        Some(trace) => Ok(Given { image, trace }),
        None => Err(ExitStatus::Failed),
    }
}

// The trace that a run of the image has. If there is none, the line that says so is printed, and the reason is reported.
fn fitting_trace<O: Sink, E: Sink>(
    alloc: Global,
    given: &Given,
    out: &mut O,
    faults: &mut E,
) -> Result<Trace, ExitStatus>
    requires writes { O.broken out.old ≡ false }
    requires reports { E.broken faults.old ≡ false }
    ensures kept { OnOk result (faults.new ≡ faults.old) }
    ensures quiet { OnOk result (out.new ≡ out.old) }
    ensures reads { IfOk result (λ trace. recorded_at given.now.trace.items ≡ Ok trace) }
    ensures stopped { IfErr result (λ answered. PrintsUnfit given.now.image.items given.now.trace.items answered (writer_of (O.written out.old) (O.written out.new) (O.broken out.new))
        ⊎ ((answered ≡ exit.Failed) × TellsFault (writer_of (E.written faults.old) (E.written faults.new) (E.broken faults.new))
        × PrintsPart (λ text. (status : ExitStatus) × IsUnfitRefusal given.now.image.items given.now.trace.items status text)
        (writer_of (O.written out.old) (O.written out.new) (O.broken out.new)))) }
{
    let (image, trace) = (given.image.as_slice(), given.trace.as_slice());
    match open_fit(alloc, image, trace) {
        Ok(Opened::Fits(_)) => match read_trace(alloc, trace) {
            Ok(trace) => Ok(trace),
            Err(_) => Err(out_of_memory(faults)),
        },
        Ok(Opened::Refused(why)) => match refuse(&why, out) {
            Ok(status) => {
                explain_files(alloc, image, trace, status, faults);
                Err(status)
            }
            Err(why) => {
                say(faults, why.words(), "", "");
                Err(ExitStatus::Failed)
            }
        },
        Err(_) => Err(out_of_memory(faults)),
    }
}

/// How a run with a trace is recorded in another order, where random words start so and these bytes are read: with its budget and its profile.
pub fn plan_like<'a>(trace: &Trace, random: u64, input: &'a [u8]) -> RecordPlan<'a>
    ensures { result ≡ record { order = None; budget = trace.now.budget; random = random; input = input.now; profile = trace.now.profile } }
{
    RecordPlan {
        order: None,
        budget: trace.budget(),
        random,
        input,
        profile: trace.profile(),
    }
}

/// A run of a guest that is looked for: what the given run is shrunk to.
#[derive(Clone, Copy)]
pub struct Shrinking<'a, 'b, R> {
    /// The clock, and where it is said how far it is.
    pub rt: &'b R,
    /// The image of the guest.
    pub image: &'a ParsedImage<'a>,
    /// The trace of the given run.
    pub trace: &'a Trace,
    /// How it is shrunk.
    pub plan: &'a ShrinkPlan<'a>,
}

impl<R: Clock + Eprint + AllocGlobal> RunSought for Shrinking<'_, '_, R> {
    type Run = Shrunk;

    ghost trace_of = { λ shrunk. shrunk.trace };

    ghost is_found = { λ sought shrunk reports. IsRunShrunk sought.image.now sought.trace.now sought.plan.now shrunk.is_minimal shrunk.trace };

    ghost is_missed = { λ sought answered out reports. RefusesGiven sought.image.now sought.trace.now sought.plan.now answered out reports
        ⊎ TellsNoSearch (LacksGuest sought.image.now sought.plan.now.record.profile) (IsShrinkAnswer sought.image.now sought.trace.now sought.plan.now) answered out reports };

    fn recorded<W: WholeSink, P: OutputSink, O: Sink, E: Sink>(
        &self,
        files: &mut RecordFiles<W, P>,
        out: &mut O,
        faults: &mut E,
    ) -> Result<Shrunk, ExitStatus> {
        let given = GivenRun {
            image: self.image,
            trace: self.trace,
        };
        shrink_run(self.rt, &given, self.plan, files, out, faults)
    }
}

/// The exit status of what was shrunk. At a terminal it is reported how the threads ended.
pub fn shrunk_status<E: Sink>(
    alloc: Global,
    explains: bool,
    shrunk: &Shrunk,
    faults: &mut E,
) -> ExitStatus
    ensures status { result ≡ shrunk_answer shrunk.now.is_minimal }
    ensures grows { GoesOn (E.written faults.old) (E.written faults.new) }
{
    if explains {
        tell_ends(alloc, &shrunk.trace, faults);
    }
    if shrunk.is_minimal {
        ExitStatus::Done
    } else {
        ExitStatus::GaveUp
    }
}

// Shrinks the run of a guest with the trace in a file, records what it is shrunk to into another, and what its threads print into others where they
// are asked for.
pub fn shrink_file<R, D, G, O, E>(
    around: &Surroundings<'_, R, D, G>,
    arguments: &ShrinkArguments,
    explains: bool,
    out: &mut O,
    faults: &mut E,
) -> ExitStatus
where
    R: Clock + Eprint + AllocGlobal,
    D: Folder,
    O: Sink,
    E: Sink,
    requires writes { O.broken out.old ≡ false }
    requires reports { E.broken faults.old ≡ false }
    ensures { ShrinksFile (D.bytes_at around.now.folder.now) (storing D.known D.known_closed (D.knows around.now.folder.now) (D.was_put around.now.folder.now))
        arguments.now result (writer_of (O.written out.old) (O.written out.new) (O.broken out.new)) (writer_of (E.written faults.old) (E.written faults.new) (E.broken faults.new)) }
{
    match shrunk_by(around, arguments, explains, out, faults) {
        Ok(shrunk) => shrunk_status(around.rt.alloc(), explains, &shrunk, faults),
        Err(status) => status,
    }
}

// The same; what it is shrunk to, or the exit status.
fn shrunk_by<R: Clock + Eprint + AllocGlobal, D: Folder, G, O: Sink, E: Sink>(
    around: &Surroundings<'_, R, D, G>,
    arguments: &ShrinkArguments,
    explains: bool,
    out: &mut O,
    faults: &mut E,
) -> Result<Shrunk, ExitStatus>
    requires writes { O.broken out.old ≡ false }
    requires reports { E.broken faults.old ≡ false }
    ensures done { IfOk result (λ shrunk. ShrinksTo (D.bytes_at around.now.folder.now) (storing D.known D.known_closed (D.knows around.now.folder.now) (D.was_put around.now.folder.now))
        arguments.now shrunk.is_minimal (writer_of (O.written out.old) (O.written out.new) (O.broken out.new))) }
    ensures stopped { IfErr result (λ answered. ShrinksNothing (D.bytes_at around.now.folder.now) arguments.now answered
        (writer_of (O.written out.old) (O.written out.new) (O.broken out.new)) (writer_of (E.written faults.old) (E.written faults.new) (E.broken faults.new))) }
{
    let alloc = around.rt.alloc();
    let given = given_by(around, faults, arguments)?;
    let trace = fitting_trace(alloc, &given, out, faults)?;
    let image = ParsedImage::new(alloc, given.image.as_slice());
    let until = arguments.until.as_slice();
    let files = SearchFiles::of(around, faults, &paths(arguments), &image, until)?;
    let texts = texts_of(alloc, faults, until)?;
    let plan = ShrinkPlan {
        record: plan_like(&trace, arguments.random, files.input.as_slice()),
        conditions: files.conditions.as_slice(),
        texts: texts.as_slice(),
        stale: arguments.stale,
        seconds: arguments.seconds,
        is_shown: explains,
    };
    let sought = Shrinking {
        rt: around.rt,
        image: &image,
        trace: &trace,
        plan: &plan,
    };
    let places = Places::new(arguments.out.as_str(), &files.outputs);
    recorded_into(around, places, &sought, out, faults)
}
