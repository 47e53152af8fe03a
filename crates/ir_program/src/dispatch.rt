//! What the program does by its arguments, over streams and a folder.

ghost use Rattle.std.specs.Prelude.{◌≡◌, ◌≢◌, true, false, map, option_map};
ghost use Rattle.std.specs.String.{string_bytes};
ghost use Rattle.ir_files.specs.Writers.{writer_of};
ghost use Rattle.ir_files.specs.declared.exit_status.ExitStatus.TheVariants as exit;
ghost use Rattle.ir_commands.specs.Files.{GoesOn, TellsFault};
ghost use Rattle.ir_commands.specs.Writing.{storing};
ghost use Rattle.ir_program.specs.Doing.{Does, HeldBundle, HoldsSession, HoldsConnection, MakesImage, Prints, PrintsOutcomes, Shows};
ghost use Rattle.ir_program.specs.Named.{DoesByFile, ServesCommandLine, ServesNamed, names_status, use_of, use_of_print};
ghost use Rattle.ir_program.specs.Serving.{ServesWords};
ghost use Rattle.ir_program.specs.Taking.{TakenReader};
ghost use Rattle.ir_program.specs.declared.names_use.NamesUse.TheVariants.{Named};

use crate::bundles::bundle;
use crate::debug::{debug_files, gdb_files};
use crate::ends_once::EndsOnce;
use crate::names_use::NamesUse;
use crate::prompting::Prompting;
use ir_arguments::{Asked, DebugArguments, Explored, Make, Print, parsed};
use ir_commands::{
    Surroundings, assemble_file, bytes_of, classes_file, convert_file, diff_files, events_file,
    explain_image, explore_file, hunt_file, list_file, outside_file, record_file, say, shrink_file,
    stale_file, trace_file, until_file, view_file, who_file, why_file, within_file,
};
use ir_files::{ExitStatus, Folder, MOST_FILE_BYTES};
use ir_names::{NamedSink, NamesErr, NamesSplit, read_names, split_words};
use ir_object::{Gate, Given};
use ir_search::Observer;
use ir_stream::{Sink, Source, write_all};
use std::alloc::Global;
use std::sync::Wait;
use std::thread::Threads;
use std::time::Clock;

/// Which streams are terminals.
#[derive(Clone, Copy, Debug, PartialEq, Eq)]
pub struct Terminals {
    /// What is read. In a session of files each line is prompted for there.
    pub input: bool,
    /// Where faults are reported. One of a source is explained there, and progress and the ends of a recording's threads are shown.
    pub faults: bool,
}

/// How the program was started.
#[derive(Clone, Copy, Debug)]
pub struct Invocation<'a> {
    /// Its arguments, of which the first is its name.
    pub arguments: &'a [String],
    /// Which of its streams are terminals.
    pub terminals: Terminals,
}

// What is said at a terminal where nothing was asked for.
const WAITS: &str =
    "ir: waiting for an image and a trace, a line of hexadecimal each; see ir --help\n";

// What is said where the words ask for names, and don't name exactly one file.
const ONE_FILE: &str = "--names wants the FILE with the names, and is given once";

// What is said where a request takes no names.
const NOT_TAKEN: &str =
    "--names is for record, hunt, shrink, explore, list, trace, events, stale, who, why and diff";

// A request whose lines have names: the file of names, if exactly one is named, and whether the lines begin with addresses.
#[derive(Clone, Copy)]
struct NamedRequest<'a> {
    file: Option<&'a str>,
    lists: bool,
    terminals: Terminals,
}

// Writes a text about the program.
fn help<O: Sink, E: Sink>(text: &str, out: &mut O, faults: &mut E) -> ExitStatus
    requires writes { O.broken out.old ≡ false }
    requires reports { E.broken faults.old ≡ false }
    ensures { Shows text.now result (writer_of (O.written out.old) (O.written out.new) (O.broken out.new)) (writer_of (E.written faults.old) (E.written faults.new) (E.broken faults.new)) }
{
    match write_all(out, text.as_bytes()) {
        Ok(()) => ExitStatus::Done,
        Err(_) => {
            say(faults, "standard output can't be written", "", "");
            ExitStatus::Failed
        }
    }
}

// The session of what is read, an image and a trace as lines of digits and then commands. At a terminal its input ends at the first end of it.
fn bundled_session<R, D, G, I, O, E>(
    around: &Surroundings<'_, R, D, G>,
    at_terminal: bool,
    input: I,
    out: &mut O,
    faults: &mut E,
) -> ExitStatus
where
    R: Threads + Clock + Sync + Eprint + AllocGlobal,
    G: Gate + Sync,
    I: Source + Drop,
    O: Sink,
    E: Sink,
    requires reads { I.broken input ≡ false }
    requires writes { O.broken out.old ≡ false }
    requires reports { E.broken faults.old ≡ false }
    ensures { (reader : TakenReader) × (reader.before ≡ I.left input) × HeldBundle result reader (writer_of (O.written out.old) (O.written out.new) (O.broken out.new)) (out.new ≡ out.old) }
{
    let mut input = EndsOnce::new(input, at_terminal);
    if at_terminal {
        let _ = around.rt.eprint(format_args!("{WAITS}"));
    }
    let hands = Given::new(around.rt, around.rt.alloc(), around.gate);
    bundle(&hands, &mut input, out, faults)
}

// Makes an image.
fn make<R: AllocGlobal, D: Folder, G, E: Sink>(
    around: &Surroundings<'_, R, D, G>,
    what: &Make,
    explains: bool,
    faults: &mut E,
) -> ExitStatus
    requires { E.broken faults.old ≡ false }
    ensures { MakesImage (D.bytes_at around.now.folder.now) (storing D.known D.known_closed (D.knows around.now.folder.now) (D.was_put around.now.folder.now))
        what.now result (writer_of (E.written faults.old) (E.written faults.new) (E.broken faults.new)) }
{
    let (alloc, folder) = (around.rt.alloc(), around.folder);
    match what {
        Make::Source(arguments) => assemble_file(alloc, folder, arguments, explains, faults),
        Make::Elf(arguments) => convert_file(alloc, folder, arguments, explains, faults),
    }
}

// Prints lines about files.
fn print<R: AllocGlobal, D: Folder, G, O: Sink, E: Sink>(
    around: &Surroundings<'_, R, D, G>,
    what: &mut Print,
    out: &mut O,
    faults: &mut E,
) -> ExitStatus
    requires writes { O.broken out.old ≡ false }
    requires reports { E.broken faults.old ≡ false }
    ensures prints { Prints (D.bytes_at around.now.folder.now) what.old result (writer_of (O.written out.old) (O.written out.new) (O.broken out.new))
        (writer_of (E.written faults.old) (E.written faults.new) (E.broken faults.new)) (out.new ≡ out.old) }
    ensures quiet { result ≡ exit.Done → faults.new ≡ faults.old }
{
    let (alloc, folder) = (around.rt.alloc(), around.folder);
    match what {
        Print::Code(arguments) => list_file(alloc, folder, arguments, out, faults),
        Print::Trace(arguments) => trace_file(alloc, folder, arguments, out, faults),
        Print::Events(arguments) => { events_file(alloc, folder, arguments, out, faults) }
        Print::Stale(arguments) => { stale_file(alloc, folder, arguments, out, faults) }
        Print::Who(arguments) => who_file(alloc, folder, arguments, out, faults),
        Print::Why(arguments) => why_file(alloc, folder, arguments, out, faults),
        Print::Diff(arguments) => diff_files(alloc, folder, arguments, out, faults),
        Print::View(arguments) => view_file(alloc, folder, arguments, out, faults),
    }
}

// Prints outcomes of the guest in a file.
fn explore<R, D, G, O, E>(
    around: &Surroundings<'_, R, D, G>,
    what: &Explored,
    out: &mut O,
    faults: &mut E,
) -> ExitStatus
where
    R: AllocGlobal,
    D: Folder,
    G: Observer,
    O: Sink,
    E: Sink,
    requires writes { O.broken out.old ≡ false }
    requires reports { E.broken faults.old ≡ false }
    ensures { PrintsOutcomes (D.bytes_at around.now.folder.now) what.now result (writer_of (O.written out.old) (O.written out.new) (O.broken out.new))
        (writer_of (E.written faults.old) (E.written faults.new) (E.broken faults.new)) (out.new ≡ out.old) }
{
    match what {
        Explored::Within(arguments) => within_file(around, arguments, out, faults),
        Explored::Classes(arguments) => classes_file(around, arguments, out, faults),
        Explored::Outcomes(arguments) => explore_file(around, arguments, out, faults),
    }
}

// Reports why nothing is done; the exit status of that.
fn told<E: Sink>(why: &str, status: ExitStatus, faults: &mut E) -> ExitStatus
    requires reports { E.broken faults.old ≡ false }
    ensures status { result ≡ status }
    ensures told { TellsFault (writer_of (E.written faults.old) (E.written faults.new) (E.broken faults.new)) }
{
    say(faults, why, "", "");
    status
}

// The session of lines of the files that are named.
fn debug<R, D, G, I, O, E>(
    around: &Surroundings<'_, R, D, G>,
    arguments: &DebugArguments,
    asks: bool,
    input: I,
    out: &mut O,
    faults: &mut E,
) -> ExitStatus
where
    R: Threads + Clock + Sync + Eprint + AllocGlobal,
    D: Folder,
    G: Gate + Sync,
    I: Source + Drop,
    O: Sink,
    E: Sink,
    requires reads { I.broken input ≡ false }
    requires writes { O.broken out.old ≡ false }
    requires reports { E.broken faults.old ≡ false }
    ensures { HoldsSession (D.bytes_at around.now.folder.now) arguments.now result (I.left input) (writer_of (O.written out.old) (O.written out.new) (O.broken out.new))
        (writer_of (E.written faults.old) (E.written faults.new) (E.broken faults.new)) (out.new ≡ out.old) }
{
    let mut input = Prompting::new(input, around.rt, asks);
    debug_files(around, arguments, &mut input, out, faults)
}

// The connection of gdb to the run of the files that are named.
fn gdb<R, D, G, I, O, E>(
    around: &Surroundings<'_, R, D, G>,
    arguments: &DebugArguments,
    input: I,
    out: &mut O,
    faults: &mut E,
) -> ExitStatus
where
    R: Threads + Clock + Sync + AllocGlobal,
    D: Folder,
    G: Gate + Sync,
    I: Source + Drop,
    O: Sink,
    E: Sink,
    requires reads { I.broken input ≡ false }
    requires writes { O.broken out.old ≡ false }
    requires reports { E.broken faults.old ≡ false }
    ensures { HoldsConnection (D.bytes_at around.now.folder.now) arguments.now result (I.left input) (writer_of (O.written out.old) (O.written out.new) (O.broken out.new))
        (writer_of (E.written faults.old) (E.written faults.new) (E.broken faults.new)) (out.new ≡ out.old) }
{
    let mut input = input;
    gdb_files(around, arguments, &mut input, out, faults)
}

// The image that a request is about, if it is told what it is where it is refused.
fn image_of(asked: &Asked) -> Option<&str> {
    let image = match asked {
        Asked::Record(arguments) => &arguments.image,
        Asked::Hunt(arguments) => &arguments.image,
        Asked::Shrink(arguments) => &arguments.image,
        Asked::Until(arguments) => &arguments.explore.image,
        Asked::Outside(arguments) => &arguments.within.explore.image,
        Asked::Print(Print::Code(arguments)) => &arguments.image,
        Asked::Explore(Explored::Outcomes(arguments)) => &arguments.image,
        Asked::Explore(Explored::Classes(arguments)) => &arguments.explore.image,
        Asked::Explore(Explored::Within(arguments)) => &arguments.explore.image,
        _ => return None,
    };
    Some(image.as_str())
}

// The image of the guest that it is compared with.
fn other_of(asked: &Asked) -> Option<&str> {
    let within = match asked {
        Asked::Outside(arguments) => &arguments.within,
        Asked::Explore(Explored::Within(arguments)) => arguments,
        _ => return None,
    };
    Some(within.other.as_str())
}

// Where an image was refused, it is reported what it is, if faults can still be reported.
fn explain_if<D: Folder, E: Sink>(
    alloc: Global,
    folder: &D,
    image: Option<&str>,
    status: ExitStatus,
    faults: &mut E,
)
    ensures kept { status ≢ exit.Refused → faults.new ≡ faults.old }
    ensures broken { E.broken faults.old ≡ true → faults.new ≡ faults.old }
    ensures grows { GoesOn (E.written faults.old) (E.written faults.new) }
{
    if faults.failed() {
        return;
    }
    if let Some(image) = image {
        explain_image(alloc, folder, image, status, faults);
    }
}

// The same of the image of a request, and of the guest that it is compared with.
fn explain<D: Folder, E: Sink>(
    alloc: Global,
    folder: &D,
    asked: &Asked,
    status: ExitStatus,
    faults: &mut E,
)
    ensures kept { status ≢ exit.Refused → faults.new ≡ faults.old }
    ensures broken { E.broken faults.old ≡ true → faults.new ≡ faults.old }
    ensures grows { GoesOn (E.written faults.old) (E.written faults.new) }
{
    explain_if(alloc, folder, image_of(asked), status, faults);
    explain_if(alloc, folder, other_of(asked), status, faults);
}

// Does what is asked, and gives the exit status.
fn serve<R, D, G, I, O, E>(
    around: &Surroundings<'_, R, D, G>,
    terminals: Terminals,
    asked: &mut Asked,
    input: I,
    out: &mut O,
    faults: &mut E,
) -> ExitStatus
where
    R: Threads + Wait + Sync + Clock + Eprint + AllocGlobal,
    D: Folder,
    G: Gate + Observer + Sync,
    I: Source + Drop,
    O: Sink,
    E: Sink,
    requires reads { I.broken input ≡ false }
    requires writes { O.broken out.old ≡ false }
    requires reports { E.broken faults.old ≡ false }
    ensures { Does (D.bytes_at around.now.folder.now) (storing D.known D.known_closed (D.knows around.now.folder.now) (D.was_put around.now.folder.now))
        asked.old result (I.left input) (writer_of (O.written out.old) (O.written out.new) (O.broken out.new))
        (writer_of (E.written faults.old) (E.written faults.new) (E.broken faults.new)) (out.new ≡ out.old) }
{
    let explains = terminals.faults;
    match asked {
        Asked::Session => bundled_session(around, terminals.input, input, out, faults),
        Asked::Make(what) => make(around, what, explains, faults),
        Asked::Record(arguments) => record_file(around, arguments, explains, out, faults),
        Asked::Hunt(arguments) => hunt_file(around, arguments, explains, out, faults),
        Asked::Shrink(arguments) => shrink_file(around, arguments, explains, out, faults),
        Asked::Until(arguments) => until_file(around, arguments, explains, out, faults),
        Asked::Outside(arguments) => outside_file(around, arguments, explains, out, faults),
        Asked::Debug(arguments) => debug(around, arguments, terminals.input, input, out, faults),
        Asked::Gdb(arguments) => gdb(around, arguments, input, out, faults),
        Asked::Print(what) => print(around, what, out, faults),
        Asked::Explore(what) => explore(around, what, out, faults),
        Asked::Help(text) => help(text.as_str(), out, faults),
        Asked::Nothing(why) => told(why.as_str(), ExitStatus::BadArguments, faults),
        Asked::NoMem => told("memory ran out", ExitStatus::Failed, faults),
    }
}

// Does what words ask for that are about no file of names.
fn plain<R, D, G, I, O, E>(
    around: &Surroundings<'_, R, D, G>,
    invocation: &Invocation<'_>,
    input: I,
    out: &mut O,
    faults: &mut E,
) -> ExitStatus
where
    R: Threads + Wait + Sync + Clock + Eprint + AllocGlobal,
    D: Folder,
    G: Gate + Observer + Sync,
    I: Source + Drop,
    O: Sink,
    E: Sink,
    requires reads { I.broken input ≡ false }
    requires writes { O.broken out.old ≡ false }
    requires reports { E.broken faults.old ≡ false }
    ensures { ServesWords (D.bytes_at around.now.folder.now) (storing D.known D.known_closed (D.knows around.now.folder.now) (D.was_put around.now.folder.now))
        (map string_bytes invocation.now.arguments.now) result (I.left input) (writer_of (O.written out.old) (O.written out.new) (O.broken out.new))
        (writer_of (E.written faults.old) (E.written faults.new) (E.broken faults.new)) (out.new ≡ out.old) }
{
    let alloc = around.rt.alloc();
    let mut asked = parsed(alloc, invocation.arguments);
    let status = serve(around, invocation.terminals, &mut asked, input, out, faults);
    explain(alloc, around.folder, &asked, status, faults);
    status
}

// What names are for what is printed of files.
fn use_of_print(what: &Print) -> NamesUse
    ensures { result ≡ use_of_print what.now }
{
    match what {
        Print::Code(_) => NamesUse::Named(true),
        Print::Trace(_) => NamesUse::Named(false),
        Print::Events(_) => NamesUse::Named(false),
        Print::Stale(_) => NamesUse::Named(false),
        Print::Who(_) => NamesUse::Named(false),
        Print::Why(_) => NamesUse::Named(false),
        Print::Diff(_) => NamesUse::Named(false),
        Print::View(_) => NamesUse::NotTaken,
    }
}

// What names are for a request.
fn use_of(asked: &Asked) -> NamesUse
    ensures { result ≡ use_of asked.now }
{
    match asked {
        Asked::Print(what) => use_of_print(what),
        Asked::Session => NamesUse::NotTaken,
        Asked::Make(_) => NamesUse::NotTaken,
        Asked::Debug(_) => NamesUse::NotTaken,
        Asked::Gdb(_) => NamesUse::NotTaken,
        Asked::Help(_) => NamesUse::Unasked,
        Asked::Nothing(_) => NamesUse::Unasked,
        Asked::NoMem => NamesUse::Unasked,
        Asked::Record(_) => NamesUse::Named(false),
        Asked::Hunt(_) => NamesUse::Named(false),
        Asked::Shrink(_) => NamesUse::Named(false),
        Asked::Until(_) => NamesUse::Named(false),
        Asked::Outside(_) => NamesUse::Named(false),
        Asked::Explore(_) => NamesUse::Named(false),
    }
}

// Reports why a file of names isn't taken; the status.
fn names_refused<E: Sink>(path: &str, why: NamesErr, alloc: Global, faults: &mut E) -> ExitStatus
    requires reports { E.broken faults.old ≡ false }
    ensures status { result ≡ names_status why }
    ensures told { TellsFault (writer_of (E.written faults.old) (E.written faults.new) (E.broken faults.new)) }
{
    match why {
        NamesErr::NoMem => told("memory ran out", ExitStatus::Failed, faults),
        NamesErr::Line(number) => {
            match format!(in alloc; "line {number} is no line of names") {
                Ok(why) => say(faults, path, ": ", why.as_str()),
                Err(_) => say(faults, path, ": ", "a line is no line of names"),
            }
            ExitStatus::Refused
        }
    }
}

// Does what is asked with the names of a file.
fn with_names<R, D, G, I, O, E>(
    around: &Surroundings<'_, R, D, G>,
    request: NamedRequest<'_>,
    asked: &mut Asked,
    input: I,
    out: &mut NamedSink<O>,
    faults: &mut E,
) -> ExitStatus
where
    R: Threads + Wait + Sync + Clock + Eprint + AllocGlobal,
    D: Folder,
    G: Gate + Observer + Sync,
    I: Source + Drop,
    O: Sink,
    E: Sink,
    requires takes { use_of asked.old ≡ Named request.lists }
    requires reads { I.broken input ≡ false }
    requires writes { O.broken out.old.sink ≡ false }
    requires reports { E.broken faults.old ≡ false }
    ensures { DoesByFile (D.bytes_at around.now.folder.now) (storing D.known D.known_closed (D.knows around.now.folder.now) (D.was_put around.now.folder.now))
        (option_map (λ file. file.now) request.entry.file) request.entry.lists asked.old result (I.left input)
        (writer_of (O.written out.old.sink) (O.written out.new.sink) (O.broken out.new.sink))
        (writer_of (E.written faults.old) (E.written faults.new) (E.broken faults.new)) (out.new.sink ≡ out.old.sink) }
{
    let (alloc, folder) = (around.rt.alloc(), around.folder);
    let Some(path) = request.file else {
        return told(ONE_FILE, ExitStatus::BadArguments, faults);
    };
    let Some(bytes) = bytes_of(alloc, folder, faults, path, MOST_FILE_BYTES) else {
        return ExitStatus::Failed;
    };
    let names = match read_names(alloc, bytes.as_slice()) {
        Ok(names) => names,
        Err(why) => return names_refused(path, why, alloc, faults),
    };
    out.begin(names, request.lists);
    let status = serve(around, request.terminals, asked, input, out, faults);
    explain(alloc, folder, asked, status, faults);
    status
}

// Does what words ask for that are about a file of names.
fn named<R, D, G, I, O, E>(
    around: &Surroundings<'_, R, D, G>,
    terminals: Terminals,
    split: &NamesSplit<'_>,
    input: I,
    out: &mut NamedSink<O>,
    faults: &mut E,
) -> ExitStatus
where
    R: Threads + Wait + Sync + Clock + Eprint + AllocGlobal,
    D: Folder,
    G: Gate + Observer + Sync,
    I: Source + Drop,
    O: Sink,
    E: Sink,
    requires reads { I.broken input ≡ false }
    requires writes { O.broken out.old.sink ≡ false }
    requires reports { E.broken faults.old ≡ false }
    ensures { ServesNamed (D.bytes_at around.now.folder.now) (storing D.known D.known_closed (D.knows around.now.folder.now) (D.was_put around.now.folder.now))
        split.now result (I.left input) (writer_of (O.written out.old.sink) (O.written out.new.sink) (O.broken out.new.sink))
        (writer_of (E.written faults.old) (E.written faults.new) (E.broken faults.new)) (out.new.sink ≡ out.old.sink) }
{
    let alloc = around.rt.alloc();
    let mut asked = parsed(alloc, split.others());
    match use_of(&asked) {
        NamesUse::Unasked => serve(around, terminals, &mut asked, input, &mut out.sink, faults),
        NamesUse::NotTaken => told(NOT_TAKEN, ExitStatus::BadArguments, faults),
        NamesUse::Named(lists) => {
            let request = NamedRequest {
                file: split.only_file(),
                lists,
                terminals,
            };
            with_names(around, request, &mut asked, input, out, faults)
        }
    }
}

/// Does what the arguments ask for, and gives the exit status.
pub fn program<R, D, G, I, O, E>(
    around: Surroundings<'_, R, D, G>,
    invocation: &Invocation<'_>,
    input: I,
    out: &mut NamedSink<O>,
    faults: &mut E,
) -> ExitStatus
where
    R: Threads + Wait + Sync + Clock + Eprint + AllocGlobal,
    D: Folder,
    G: Gate + Observer + Sync,
    I: Source + Drop,
    O: Sink,
    E: Sink,
    requires reads { I.broken input ≡ false }
    requires writes { O.broken out.old.sink ≡ false }
    requires reports { E.broken faults.old ≡ false }
    ensures { ServesCommandLine (D.bytes_at around.entry.folder.now) (storing D.known D.known_closed (D.knows around.entry.folder.now) (D.was_put around.entry.folder.now))
        (map string_bytes invocation.now.arguments.now) result (I.left input)
        (writer_of (O.written out.old.sink) (O.written out.new.sink) (O.broken out.new.sink))
        (writer_of (E.written faults.old) (E.written faults.new) (E.broken faults.new)) (out.new.sink ≡ out.old.sink) }
{
    let alloc = around.rt.alloc();
    let Ok(split) = split_words(alloc, invocation.arguments) else {
        return told("memory ran out", ExitStatus::Failed, faults);
    };
    if split.wants_names() {
        named(&around, invocation.terminals, &split, input, out, faults)
    } else {
        plain(&around, invocation, input, &mut out.sink, faults)
    }
}
