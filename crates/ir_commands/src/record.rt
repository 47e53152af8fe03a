//! `ir record`: a guest in a file is recorded, its trace and what its threads print go into others.

ghost use Rattle.std.specs.Prelude.{◌≡◌, ◌⊎◌, ◌++◌, ◌∷◌, ℕ, List, [], Some, IfErr, IfOk, IfSome, IsSomeAnd, OnErr, OnOk, MatchOption, false, map, option_map};
ghost use Rattle.std.specs.String.{string_bytes};
ghost use Rattle.ir_files.specs.Writers.{writer_of};
ghost use Rattle.ir_hunt.specs.Finding.{IsOrderOfSeed};
ghost use Rattle.ir_commands.specs.Exploring.{IsInput};
ghost use Rattle.ir_commands.specs.Files.{LacksGuest, TellsFault};
ghost use Rattle.ir_commands.specs.Printing.{LeavesUnread};
ghost use Rattle.ir_commands.specs.Writing.{AreOutputPaths, IsListIn, IsNoText, IsOrderAsked, IsStatusOfNoRecording, Records, RecordsFile, RefusesRecording, StopsRecords, recorded_status, storing};

use crate::ends::{all_ended, tell_ends};
use crate::files::{bytes_of, image_in, out_of_memory, say};
use crate::recording::{
    Places, RecordingPaths, input_of, loses_input, output_places, record_files,
};
use crate::surroundings::Surroundings;
use ir_arguments::{Chaos, RecordArguments};
use ir_files::{ExitStatus, Folder, MOST_FILE_BYTES};
use ir_hunt::order_of_seed;
use ir_object::Gate;
use ir_record_command::{ParsedImage, RecordPlan, Recording, record_run};
use ir_stream::Sink;
use ir_trace::Trace;
use std::alloc::Global;
use std::sync::Wait;
use std::thread::Threads;
use std::time::Clock;

// Without the line feed, and the carriage return before it, at its end.
fn without_end(list: &str) -> &str
    ensures { (list.now ≡ result.now) ⊎ ((list.now ≡ result.now ++ 10 ∷ []) ⊎ ((list.now ≡ result.now ++ 13 ∷ []) ⊎ (list.now ≡ result.now ++ 13 ∷ 10 ∷ []))) }
{
    let line = list.strip_suffix('\n').unwrap_or(list);
    line.strip_suffix('\r').unwrap_or(line)
}

// A copy of a list. If memory runs out, that is reported.
fn copied<E: Sink>(alloc: Global, faults: &mut E, list: &str) -> Result<Option<String>, ExitStatus>
    ensures kept { OnOk result (faults.new ≡ faults.old) }
    ensures list { IfOk result (λ copy. option_map string_bytes copy ≡ Some list.now) }
    ensures status { IfErr result (IsStatusOfNoRecording ⊥) }
    ensures told { OnErr result (E.broken faults.old ≡ false → TellsFault (writer_of (E.written faults.old) (E.written faults.new) (E.broken faults.new))) }
{
    match String::from_str(alloc, list) {
        Ok(list) => Ok(Some(list)),
        Err(_) => Err(out_of_memory(faults)),
    }
}

// The list of a file, which a line feed may end. If there is none, the reason is reported.
fn list_in<D: Folder, E: Sink>(
    alloc: Global,
    folder: &D,
    faults: &mut E,
    path: &str,
) -> Result<Option<String>, ExitStatus>
    ensures kept { OnOk result (faults.new ≡ faults.old) }
    ensures list { IfOk result (λ found. (list : List ℕ) × (option_map string_bytes found ≡ Some list) × IsListIn (D.bytes_at folder.now path.now) list) }
    ensures status { IfErr result (IsStatusOfNoRecording (IfSome (D.bytes_at folder.now path.now) IsNoText)) }
    ensures told { OnErr result (E.broken faults.old ≡ false → TellsFault (writer_of (E.written faults.old) (E.written faults.new) (E.broken faults.new))) }
{
    let Some(bytes) = bytes_of(alloc, folder, faults, path, MOST_FILE_BYTES) else {
        return Err(ExitStatus::Failed);
    };
    match String::from_utf8(bytes) {
        Ok(list) => copied(alloc, faults, without_end(list.as_str())),
        Err(_) => {
            say(faults, path, ": ", "LIST is no text");
            Err(ExitStatus::Refused)
        }
    }
}

// The list that writes the order out, if there is one.
fn list_of<D: Folder, E: Sink>(
    alloc: Global,
    folder: &D,
    faults: &mut E,
    arguments: &RecordArguments,
) -> Result<Option<String>, ExitStatus>
    ensures kept { OnOk result (faults.new ≡ faults.old) }
    ensures list { IfOk result (λ found. MatchOption arguments.now.order_file (option_map string_bytes found ≡ option_map string_bytes arguments.now.order)
        (λ path. (list : List ℕ) × (option_map string_bytes found ≡ Some list) × IsListIn (D.bytes_at folder.now (string_bytes path)) list)) }
    ensures status { IfErr result (IsStatusOfNoRecording (IsSomeAnd arguments.now.order_file (λ path. IfSome (D.bytes_at folder.now (string_bytes path)) IsNoText))) }
    ensures told { OnErr result (E.broken faults.old ≡ false → TellsFault (writer_of (E.written faults.old) (E.written faults.new) (E.broken faults.new))) }
{
    match (&arguments.order_file, &arguments.order) {
        (Some(path), _) => list_in(alloc, folder, faults, path.as_str()),
        (None, Some(list)) => copied(alloc, faults, list.as_str()),
        (None, None) => Ok(None),
    }
}

// The list of a seed.
fn list_of_seed<C: Clock, E: Sink>(
    alloc: Global,
    clock: &C,
    faults: &mut E,
    image: &ParsedImage<'_>,
    plan: RecordPlan<'_>,
    chaos: Chaos,
) -> Result<Option<String>, ExitStatus>
    ensures kept { OnOk result (faults.new ≡ faults.old) }
    ensures list { IfOk result (λ found. (list : List ℕ) × (option_map string_bytes found ≡ Some list)
        × IsOrderOfSeed image.now plan.entry chaos.way chaos.seed list) }
    ensures status { IfErr result (IsStatusOfNoRecording (LacksGuest image.now plan.entry.profile)) }
    ensures told { OnErr result (E.broken faults.old ≡ false → TellsFault (writer_of (E.written faults.old) (E.written faults.new) (E.broken faults.new))) }
{
    let Chaos { seed, way } = chaos;
    match order_of_seed(alloc, clock, image, plan, way, seed) {
        Ok(Some(list)) => Ok(Some(list)),
        Ok(None) => {
            say(
                faults,
                "the run of this seed has too many turns to be followed",
                "",
                "",
            );
            Err(ExitStatus::Failed)
        }
        Err(why) => {
            say(faults, why.words(), "", "");
            Err(why.status())
        }
    }
}

// The files of a recording.
fn paths(arguments: &RecordArguments) -> RecordingPaths<'_>
    ensures input { result.input.now ≡ arguments.now.options.input }
    ensures output { option_map (λ prefix. prefix.now) result.output ≡ arguments.now.options.output }
{
    let (options, trace) = (&arguments.options, &arguments.trace);
    RecordingPaths {
        list: arguments.order_file.as_ref(),
        ..RecordingPaths::new(&arguments.image, trace, &options.input, &options.output)
    }
}

// The text of a list, if there is one.
fn text_in(list: &Option<String>) -> Option<&str>
    ensures { option_map (λ text. text.now) result ≡ option_map string_bytes list.now }
{
    match list {
        Some(list) => Some(list.as_str()),
        None => None,
    }
}

// What a recording reads beside its image, and where what its threads print goes.
#[derive(Drop)]
struct Beside {
    outputs: Option<Vec<String>>,
    input: Vec<u8>,
    list: Option<String>,
}

impl Beside {
    // Reads it; if it can't be read, the reason is reported.
    fn of<C: Clock, D: Folder, E: Sink>(
        alloc: Global,
        clock: &C,
        folder: &D,
        faults: &mut E,
        arguments: &RecordArguments,
        image: &ParsedImage<'_>,
    ) -> Result<Beside, ExitStatus>
        ensures kept { OnOk result (faults.new ≡ faults.old) }
        ensures input { IfOk result (λ beside. IsInput (D.bytes_at folder.now) arguments.now.options.input beside.input.items) }
        ensures outputs { IfOk result (λ beside. AreOutputPaths arguments.now.options.output (option_map (λ each. map string_bytes each.items) beside.outputs)) }
        ensures order { IfOk result (λ beside. IsOrderAsked (D.bytes_at folder.now) arguments.now image.now beside.input.items (option_map string_bytes beside.list)) }
        ensures status { IfErr result (IsStatusOfNoRecording (LacksGuest image.now arguments.now.options.profile
            ⊎ IsSomeAnd arguments.now.order_file (λ path. IfSome (D.bytes_at folder.now (string_bytes path)) IsNoText))) }
        ensures told { OnErr result (E.broken faults.old ≡ false → TellsFault (writer_of (E.written faults.old) (E.written faults.new) (E.broken faults.new))) }
    {
        let paths = paths(arguments);
        let outputs = output_places(alloc, folder, faults, &paths, image)?;
        let Some(input) = input_of(alloc, folder, faults, paths.input) else {
            return Err(ExitStatus::Failed);
        };
        let list = match arguments.chaos {
            Some(chaos) => {
                let plan = arguments.plan(None, input.as_slice());
                list_of_seed(alloc, clock, faults, image, plan, chaos)?
            }
            None => list_of(alloc, folder, faults, arguments)?,
        };
        Ok(Beside {
            outputs,
            input,
            list,
        })
    }
}

// The exit status of a recording, whose ends are reported in words if a person looks on.
fn status_of<E: Sink>(
    alloc: Global,
    trace: &Trace,
    asks: bool,
    explains: bool,
    faults: &mut E,
) -> ExitStatus
    ensures { result ≡ recorded_status asks trace.now }
{
    if explains {
        tell_ends(alloc, trace, faults);
    }
    if asks && !all_ended(trace) {
        ExitStatus::NotSo
    } else {
        ExitStatus::Done
    }
}

// What was recorded of a guest; its files are written. If nothing was, the exit status.
fn recorded_by<R, D, G, O, E>(
    around: &Surroundings<'_, R, D, G>,
    arguments: &RecordArguments,
    out: &mut O,
    faults: &mut E,
) -> Result<Trace, ExitStatus>
where
    R: Threads + Wait + Sync + Clock + AllocGlobal,
    D: Folder,
    G: Gate + Sync,
    O: Sink,
    E: Sink,
    requires writes { O.broken out.old ≡ false }
    requires reports { E.broken faults.old ≡ false }
    ensures done { IfOk result (λ recorded. Records (D.bytes_at around.now.folder.now) (storing D.known D.known_closed (D.knows around.now.folder.now) (D.was_put around.now.folder.now))
        arguments.now recorded (writer_of (O.written out.old) (O.written out.new) (O.broken out.new))) }
    ensures stopped { IfErr result (λ answered. StopsRecords (D.bytes_at around.now.folder.now) arguments.now answered (writer_of (O.written out.old) (O.written out.new) (O.broken out.new))
        (writer_of (E.written faults.old) (E.written faults.new) (E.broken faults.new)) (out.new ≡ out.old)
        ⊎ LeavesUnread (IsStatusOfNoRecording (RefusesRecording (D.bytes_at around.now.folder.now) arguments.now) answered)
        (out.new ≡ out.old) (writer_of (E.written faults.old) (E.written faults.new) (E.broken faults.new))) }
{
    let (rt, folder) = (around.rt, around.folder);
    let alloc = rt.alloc();
    if loses_input(folder, faults, &paths(arguments)) {
        return Err(ExitStatus::BadArguments);
    }
    let image = image_in(alloc, folder, faults, arguments.image.as_str())?;
    let image = ParsedImage::new(alloc, image.as_slice());
    let beside = Beside::of(alloc, rt, folder, faults, arguments, &image)?;
    let input = beside.input.as_slice();
    let order = text_in(&beside.list);
    let places = Places::new(arguments.trace.as_str(), &beside.outputs);
    let plan = arguments.plan(order, input);
    let mut files = record_files(alloc, folder, places.trace, places.outputs);
    let recording = Recording {
        image: &image,
        plan: &plan,
    };
    record_run(rt, around.gate, &recording, &mut files, out, faults)
}

// Records a guest into a file, and what its threads print into others where they are asked for.
pub fn record_file<R, D, G, O, E>(
    around: &Surroundings<'_, R, D, G>,
    arguments: &RecordArguments,
    explains: bool,
    out: &mut O,
    faults: &mut E,
) -> ExitStatus
where
    R: Threads + Wait + Sync + Clock + AllocGlobal,
    D: Folder,
    G: Gate + Sync,
    O: Sink,
    E: Sink,
    requires writes { O.broken out.old ≡ false }
    requires reports { E.broken faults.old ≡ false }
    ensures { RecordsFile (D.bytes_at around.now.folder.now) (storing D.known D.known_closed (D.knows around.now.folder.now) (D.was_put around.now.folder.now))
        arguments.now result (writer_of (O.written out.old) (O.written out.new) (O.broken out.new))
        (writer_of (E.written faults.old) (E.written faults.new) (E.broken faults.new)) (out.new ≡ out.old) }
{
    let alloc = around.rt.alloc();
    match recorded_by(around, arguments, out, faults) {
        Ok(recorded) => status_of(alloc, &recorded, arguments.status, explains, faults),
        Err(status) => status,
    }
}
