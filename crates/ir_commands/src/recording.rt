//! What a recording reads and writes.

ghost use Rattle.std.specs.Prelude.{◌≡◌, OnSome, OnOk, OnErr, IfErr, IfOk, IfSome, None, false, true, [], map, option_map};
ghost use Rattle.std.specs.String.{string_bytes};
ghost use Rattle.ir_files.specs.Given.{fresh, given_bytes};
ghost use Rattle.ir_files.specs.Writers.{writer_of};
ghost use Rattle.ir_commands.specs.Exploring.{IsInput};
ghost use Rattle.ir_commands.specs.Files.{GoesOn, TellsFault};
ghost use Rattle.ir_commands.specs.Sought.{RecordsRun};
ghost use Rattle.ir_commands.specs.Writing.{AreOutputPaths, IsStatusOfNoRecording, KeptAt, storing, texts_of_paths};

use crate::files::{bytes_of, is_lost, out_of_memory};
use crate::sought::RunSought;
use crate::surroundings::Surroundings;
use ir_files::{ExitStatus, Folder, MOST_GUEST_INPUT, OutputFiles, WholeFile, output_paths};
use ir_record_command::{ParsedImage, RecordFiles};
use ir_stream::Sink;
use std::alloc::{AllocError, Global};

/// What a recording reads and writes.
#[derive(Clone, Copy)]
pub struct RecordingPaths<'a> {
    /// The image.
    pub image: &'a str,
    /// The image of another guest, if there is one.
    pub other: Option<&'a String>,
    /// The trace.
    pub trace: &'a str,
    /// The file that guests read, if there is one.
    pub input: &'a Option<String>,
    /// The file with the list, if there is one.
    pub list: Option<&'a String>,
    /// What the paths of the files of what threads print begin with, if they are asked for.
    pub output: Option<&'a String>,
}

impl<'a> RecordingPaths<'a> {
    /// Those of a recording of a single guest, with no list in a file.
    pub fn new(
        image: &'a String,
        trace: &'a String,
        input: &'a Option<String>,
        output: &'a Option<String>,
    ) -> RecordingPaths<'a>
        ensures image { result.image.now ≡ string_bytes image.now }
        ensures trace { result.trace.now ≡ string_bytes trace.now }
        ensures input { result.input.now ≡ input.now }
        ensures output { option_map (λ prefix. prefix.now) result.output ≡ output.now }
        ensures alone { (result.other ≡ None) × (result.list ≡ None) }
    {
        RecordingPaths {
            image: image.as_str(),
            other: None,
            trace: trace.as_str(),
            input,
            list: None,
            output: output.as_ref(),
        }
    }
}

/// Where a recording goes.
#[derive(Clone, Copy)]
pub struct Places<'a, 'b> {
    /// The trace.
    pub trace: &'a str,
    /// What each thread prints, if it is asked for.
    pub outputs: Option<&'b [String]>,
}

impl<'a, 'b> Places<'a, 'b> {
    /// The trace goes to this path, and what each thread prints to these, if it is asked for.
    pub fn new(trace: &'a str, outputs: &'b Option<Vec<String>>) -> Places<'a, 'b>
        ensures trace { result.trace.now ≡ trace.now }
        ensures outputs { option_map (λ paths. paths.now) result.outputs ≡ option_map (λ paths. paths.items) outputs.now }
    {
        Places {
            trace,
            outputs: outputs.as_ref().map(|each| each.as_slice()),
        }
    }
}

/// Where a recording goes: its trace to one path, and what each thread prints to these, if it is asked for.
pub fn record_files<'a, D: Folder>(
    alloc: Global,
    folder: &'a D,
    trace: &'a str,
    outputs: Option<&'a [String]>,
) -> RecordFiles<WholeFile<'a, D>, OutputFiles<'a, D>>
    ensures folder { result.trace.folder.now ≡ folder.now }
    ensures place { result.trace.place.now ≡ trace.now }
    ensures empty { given_bytes (D.knows result.trace.folder.now) (λ m. D.known m.file) result.trace.made ≡ fresh (D.knows folder.now) }
    ensures folders { result.outputs.folder.now ≡ folder.now }
    ensures paths { result.outputs.paths ≡ outputs.entry }
    ensures none { result.outputs.each.items ≡ [] }
    ensures writes { result.trace.failed ≡ false }
    ensures puts { result.outputs.failed ≡ false }
{
    RecordFiles {
        trace: WholeFile::new(alloc, folder, trace),
        outputs: OutputFiles::new(alloc, folder, outputs, trace),
    }
}

/// Looks for a run, and records it: its trace and what its threads print go into files at these paths.
///
/// # Errors
/// The exit status: there is none, or a fault stopped the recording.
pub fn recorded_into<R, D, G, S, O, E>(
    around: &Surroundings<'_, R, D, G>,
    places: Places<'_, '_>,
    sought: &S,
    out: &mut O,
    faults: &mut E,
) -> Result<S::Run, ExitStatus>
where
    R: AllocGlobal,
    D: Folder,
    S: RunSought,
    O: Sink,
    E: Sink,
    requires writes { O.broken out.old ≡ false }
    requires reports { E.broken faults.old ≡ false }
    ensures found { IfOk result (λ run. RecordsRun (S.trace_of run) (S.is_found sought.now run (writer_of (E.written faults.old) (E.written faults.new) (E.broken faults.new)))
        (KeptAt (storing D.known D.known_closed (D.knows around.now.folder.now) (D.was_put around.now.folder.now)) places.entry.trace.now (texts_of_paths places.entry.outputs))
        (writer_of (O.written out.old) (O.written out.new) (O.broken out.new))) }
    ensures grows { OnOk result (GoesOn (E.written faults.old) (E.written faults.new)) }
    ensures none { IfErr result (λ answered. S.is_missed sought.now answered (writer_of (O.written out.old) (O.written out.new) (O.broken out.new))
        (writer_of (E.written faults.old) (E.written faults.new) (E.broken faults.new))) }
{
    let Surroundings { rt, folder, .. } = *around;
    let mut files = record_files(rt.alloc(), folder, places.trace, places.outputs);
    sought.recorded(&mut files, out, faults)
}

/// The bytes that guests read, none without a file.
pub fn input_of<D: Folder, E: Sink>(
    alloc: Global,
    folder: &D,
    faults: &mut E,
    file: &Option<String>,
) -> Option<Vec<u8>>
    ensures kept { OnSome result (faults.new ≡ faults.old) }
    ensures input { IfSome result (λ v. IsInput (D.bytes_at folder.now) file.now v.items) }
    ensures told { result ≡ None → E.broken faults.old ≡ false → TellsFault (writer_of (E.written faults.old) (E.written faults.new) (E.broken faults.new)) }
{
    match file {
        Some(path) => bytes_of(alloc, folder, faults, path.as_str(), MOST_GUEST_INPUT),
        None => Some(Vec::new(alloc)),
    }
}

// Whether the file that is read, if one was given, would be lost by writing to a path, which is reported.
fn loses_given<D: Folder, E: Sink>(
    folder: &D,
    faults: &mut E,
    would: &str,
    file: Option<&String>,
    written: &str,
) -> bool
    ensures kept { result ≡ false → faults.new ≡ faults.old }
    ensures told { result ≡ true → E.broken faults.old ≡ false → TellsFault (writer_of (E.written faults.old) (E.written faults.new) (E.broken faults.new)) }
{
    match file {
        Some(file) => is_lost(folder, faults, would, file.as_str(), written),
        None => false,
    }
}

// What is reported if a file that a recording reads would be lost by what is written.
#[derive(Clone, Copy)]
struct Losses {
    image: &'static str,
    other: &'static str,
    file: &'static str,
    list: &'static str,
}

// If the trace would be written over it.
const OVER_BY_TRACE: Losses = Losses {
    image: "TRACE would be written over IMAGE",
    other: "TRACE would be written over OTHER",
    file: "TRACE would be written over FILE",
    list: "TRACE would be written over LISTFILE",
};

// If what a thread prints would be.
const OVER_BY_OUTPUT: Losses = Losses {
    image: "PREFIX.T would be written over IMAGE",
    other: "PREFIX.T would be written over OTHER",
    file: "PREFIX.T would be written over FILE",
    list: "PREFIX.T would be written over LISTFILE",
};

// Whether a file that a recording reads would be lost by writing to a path, which is reported.
fn loses_read<D: Folder, E: Sink>(
    folder: &D,
    faults: &mut E,
    paths: &RecordingPaths<'_>,
    would: Losses,
    written: &str,
) -> bool
    ensures kept { result ≡ false → faults.new ≡ faults.old }
    ensures told { result ≡ true → E.broken faults.old ≡ false → TellsFault (writer_of (E.written faults.old) (E.written faults.new) (E.broken faults.new)) }
{
    is_lost(folder, faults, would.image, paths.image, written)
        || loses_given(folder, faults, would.other, paths.other, written)
        || loses_given(folder, faults, would.file, paths.input.as_ref(), written)
        || loses_given(folder, faults, would.list, paths.list, written)
}

/// Whether a recording's trace would be written over one of the files that it reads.
pub fn loses_input<D: Folder, E: Sink>(
    folder: &D,
    faults: &mut E,
    paths: &RecordingPaths<'_>,
) -> bool
    ensures kept { result ≡ false → faults.new ≡ faults.old }
    ensures told { result ≡ true → E.broken faults.old ≡ false → TellsFault (writer_of (E.written faults.old) (E.written faults.new) (E.broken faults.new)) }
{
    loses_read(folder, faults, paths, OVER_BY_TRACE, paths.trace)
}

// The paths of what the threads of an image print, if they are asked for.
fn paths_of(
    alloc: Global,
    paths: &RecordingPaths<'_>,
    image: &ParsedImage<'_>,
) -> Result<Option<Vec<String>>, AllocError>
    ensures { IfOk result (λ outputs. AreOutputPaths (option_map (λ prefix. prefix.now) paths.now.output) (option_map (λ each. map string_bytes each.items) outputs)) }
{
    let Some(prefix) = paths.output else {
        return Ok(None);
    };
    let each = output_paths(alloc, prefix.as_str(), image.threads()?)?;
    Ok(Some(each))
}

// Whether what a thread prints would be written over another file of its recording.
fn loses_other<D: Folder, E: Sink>(
    folder: &D,
    faults: &mut E,
    paths: &RecordingPaths<'_>,
    path: &str,
) -> bool
    ensures kept { result ≡ false → faults.new ≡ faults.old }
    ensures told { result ≡ true → E.broken faults.old ≡ false → TellsFault (writer_of (E.written faults.old) (E.written faults.new) (E.broken faults.new)) }
{
    let would = "PREFIX.T would be written over TRACE";
    is_lost(folder, faults, would, paths.trace, path)
        || loses_read(folder, faults, paths, OVER_BY_OUTPUT, path)
}

// The same of any of these threads.
fn any_loses<D: Folder, E: Sink>(
    folder: &D,
    faults: &mut E,
    paths: &RecordingPaths<'_>,
    outputs: &[String],
) -> bool
    ensures kept { result ≡ false → faults.new ≡ faults.old }
    ensures told { result ≡ true → E.broken faults.old ≡ false → TellsFault (writer_of (E.written faults.old) (E.written faults.new) (E.broken faults.new)) }
{
    for path in outputs {
        if loses_other(folder, faults, paths, path.as_str()) {
            return true;
        }
    }
    false
}

/// The paths of what the threads of an image print, if they are asked for. If memory runs out, or one would be written
/// over another file of the recording, that is reported, and the exit status is answered.
pub fn output_places<D: Folder, E: Sink>(
    alloc: Global,
    folder: &D,
    faults: &mut E,
    paths: &RecordingPaths<'_>,
    image: &ParsedImage<'_>,
) -> Result<Option<Vec<String>>, ExitStatus>
    ensures kept { OnOk result (faults.new ≡ faults.old) }
    ensures paths { IfOk result (λ outputs. AreOutputPaths (option_map (λ prefix. prefix.now) paths.now.output) (option_map (λ each. map string_bytes each.items) outputs)) }
    ensures status { IfErr result (IsStatusOfNoRecording ⊥) }
    ensures told { OnErr result (E.broken faults.old ≡ false → TellsFault (writer_of (E.written faults.old) (E.written faults.new) (E.broken faults.new))) }
{
    let Ok(outputs) = paths_of(alloc, paths, image) else {
        return Err(out_of_memory(faults));
    };
    match &outputs {
        Some(each) if any_loses(folder, faults, paths, each.as_slice()) => {
            return Err(ExitStatus::BadArguments);
        }
        _ => {}
    }
    Ok(outputs)
}

/// Where what the threads print goes, if it is asked for, and the bytes that they read. If there are none, the reason is reported.
pub fn beside_of<D: Folder, E: Sink>(
    alloc: Global,
    folder: &D,
    faults: &mut E,
    paths: &RecordingPaths<'_>,
    image: &ParsedImage<'_>,
) -> Result<(Option<Vec<String>>, Vec<u8>), ExitStatus>
    ensures kept { OnOk result (faults.new ≡ faults.old) }
    ensures paths { IfOk result (λ beside. AreOutputPaths (option_map (λ prefix. prefix.now) paths.now.output) (option_map (λ each. map string_bytes each.items) beside.0)) }
    ensures input { IfOk result (λ beside. IsInput (D.bytes_at folder.now) paths.now.input.now beside.1.items) }
    ensures status { IfErr result (IsStatusOfNoRecording ⊥) }
    ensures told { OnErr result (E.broken faults.old ≡ false → TellsFault (writer_of (E.written faults.old) (E.written faults.new) (E.broken faults.new))) }
{
    let outputs = output_places(alloc, folder, faults, paths, image)?;
    match input_of(alloc, folder, faults, paths.input) {
        Some(input) => Ok((outputs, input)),
        None => Err(ExitStatus::Failed),
    }
}
