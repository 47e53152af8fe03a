//! Files of what the threads of a recording print.

ghost use Rattle.std.specs.Prelude.{◌≡◌, ℕ, Bool, List, ◌∷◌, [], map, OnOk, OnErr, IfOk, IfSome, Some, true, false, slice_get, ◌++◌, option_map};
ghost use Rattle.std.specs.declared.option.Option.{Option};
ghost use Rattle.std.specs.List.{range_with_len};
ghost use Rattle.std.specs.String.{string_bytes};
ghost use Rattle.ir_files.specs.Given.{IsAt, Has};
ghost use Rattle.ir_files.specs.Outputs.{Printed, Gains, HasLast, output_path, outputs_given};

use crate::files::put_all;
use crate::folder::Folder;
use crate::places::loses;
use crate::reason::reason;
use ir_stream::DeviceErr;
use std::alloc::{AllocError, Global};

/// What takes the outputs of a recording, a thread's at a time. An `Err` makes `failed` true for good.
pub trait OutputSink {
    /// What the outputs go to.
    ghost Home: { Type 0 };

    /// The same, whatever it takes.
    ghost home: { Self → Home };

    /// The outputs that it took whole so far, if it says which they are.
    ghost taken: { Self → Option (List Printed) };

    /// Whether it has failed.
    ghost broken: { Self → Bool };

    /// What messages call the output that failed, if one did.
    ghost called: { Self → List ℕ };

    /// Why it failed, if it did.
    ghost cause: { Self → List ℕ };

    /// Takes what a thread printed, all of it.
    ///
    /// # Errors
    /// It can't be written; a part of it may be.
    fn put(&mut self, thread: usize, bytes: &[u8]) -> Result<(), DeviceErr>
        ensures taken { OnOk result (Gains (taken self.old) (taken self.new) ((thread, bytes.now) ∷ [])) }
        ensures stays { OnOk result (broken self.new ≡ broken self.old) }
        ensures kept { OnErr result (Gains (taken self.old) (taken self.new) []) }
        ensures err { OnErr result (broken self.new ≡ true) }
        ensures home { home self.new ≡ home self.old };

    /// What messages call the output that failed, if one did.
    fn name(&self) -> &str
        ensures { result.now ≡ called self.now };

    /// Why it failed, if it did.
    fn why(&self) -> &str
        ensures { result.now ≡ cause self.now };
}

fn output_path(alloc: Global, prefix: &str, thread: usize) -> Result<String, AllocError>
    ensures { IfOk result (λ s. string_bytes s ≡ output_path prefix.now thread) }
{
    format!(in alloc; "{prefix}.{thread}")
}

/// The paths of the files of the outputs of `threads` threads: `PREFIX.T` for thread T.
///
/// # Errors
/// Out of memory.
pub fn output_paths(alloc: Global, prefix: &str, threads: usize) -> Result<Vec<String>, AllocError>
    ensures { IfOk result (λ v. map string_bytes v.items ≡ map (output_path prefix.now) (range_with_len 0 threads)) }
{
    let mut paths = Vec::with_capacity(alloc, threads)?;
    for thread in 0..threads {
        paths.push(output_path(alloc, prefix, thread)?)?;
    }
    Ok(paths)
}

// The output of a thread, all of which was put in a file.
#[derive(Drop)]
struct OutputFile<D: Folder> {
    thread: usize,
    file: D::Closed,
}

/// The files of the threads' outputs. Each is made, or emptied, as it is put, also for a thread that printed nothing; what
/// is there and is no file, as a device or a link, is written to as it is. If a write fails, a part of that output may be
/// there, and the outputs before it are. Without paths outputs go nowhere.
#[derive(Drop)]
pub struct OutputFiles<'a, D: Folder> {
    folder: &'a D,
    // A path for each thread, or none if no one asked for the outputs.
    paths: Option<&'a [String]>,
    trace: &'a str,
    // The outputs so far.
    each: Vec<OutputFile<D>>,
    failed: bool,
    name: &'a str,
    why: &'static str,
}

impl<'a, D: Folder> OutputFiles<'a, D> {
    /// The files at these paths and beside a trace at this one.
    pub fn new(
        alloc: Global,
        folder: &'a D,
        paths: Option<&'a [String]>,
        trace: &'a str,
    ) -> OutputFiles<'a, D>
        ensures folder { result.folder.now ≡ folder.now }
        ensures paths { result.paths ≡ paths.entry }
        ensures trace { result.trace.now ≡ trace.now }
        ensures none { result.each.items ≡ [] }
        ensures works { result.failed ≡ false }
    {
        OutputFiles {
            folder,
            paths,
            trace,
            each: Vec::new(alloc),
            failed: false,
            name: "",
            why: "",
        }
    }

    // It failed at a path, for this reason.
    fn fail(&mut self, name: &'a str, why: &'static str) -> DeviceErr
        ensures failed { self.new.failed ≡ true }
        ensures folder { self.new.folder ≡ self.old.folder }
        ensures paths { self.new.paths ≡ self.old.paths }
        ensures each { self.new.each ≡ self.old.each }
    {
        self.failed = true;
        self.name = name;
        self.why = why;
        DeviceErr
    }

    // Whether writing at a path loses the trace, or one of the outputs before, all of which are there already.
    fn loses_another(&self, path: &str, before: &[String]) -> bool {
        let found = self.folder.found_at(path);
        let trace = self.trace;
        if loses(path, found, trace, self.folder.found_at(trace)) {
            return true;
        }
        for other in before {
            let other = other.as_str();
            if loses(path, found, other, self.folder.found_at(other)) {
                return true;
            }
        }
        false
    }
}

// A file at a path that has these bytes, and no others, closed.
fn written_at<D: Folder>(folder: &D, path: &str, bytes: &[u8]) -> Result<D::Closed, &'static str>
    ensures at { IfOk result (λ file. IsAt (D.known_closed file) path.now) }
    ensures bytes { IfOk result (λ file. Has (D.knows folder.now) (D.known_closed file) bytes.now) }
{
    let mut file = match folder.create(path) {
        Ok(file) => file,
        Err(error) => return Err(reason(error.kind())),
    };
    match put_all(folder, &mut file, bytes) {
        Ok(()) => Ok(folder.close(file)),
        Err(kind) => Err(reason(kind)),
    }
}

impl<D: Folder> OutputSink for OutputFiles<'_, D> {
    ghost Home = { D × Option (List (List ℕ)) };

    ghost home = { λ f. (f.folder.now, option_map (λ paths. map string_bytes paths.now) f.paths) };

    ghost taken = { λ f. outputs_given (D.knows f.folder.now) (λ o. (o.thread, D.known_closed o.file)) (option_map (λ paths. map string_bytes paths.now) f.paths) f.each.items };

    ghost broken = { λ f. f.failed };

    ghost called = { λ f. f.name.now };

    ghost cause = { λ f. f.why.now };

    fn put(&mut self, thread: usize, bytes: &[u8]) -> Result<(), DeviceErr>
        ensures taken { OnOk result
            (Gains (outputs_given (D.knows self.old.folder.now) (λ o. (o.thread, D.known_closed o.file)) (option_map (λ paths. map string_bytes paths.now) self.old.paths) self.old.each.items)
            (outputs_given (D.knows self.new.folder.now) (λ o. (o.thread, D.known_closed o.file)) (option_map (λ paths. map string_bytes paths.now) self.new.paths) self.new.each.items)
            ((thread, bytes.now) ∷ [])) }
        ensures stays { OnOk result (self.new.failed ≡ self.old.failed) }
        ensures kept { OnErr result
            (Gains (outputs_given (D.knows self.old.folder.now) (λ o. (o.thread, D.known_closed o.file)) (option_map (λ paths. map string_bytes paths.now) self.old.paths) self.old.each.items)
            (outputs_given (D.knows self.new.folder.now) (λ o. (o.thread, D.known_closed o.file)) (option_map (λ paths. map string_bytes paths.now) self.new.paths) self.new.each.items)
            []) }
        ensures err { OnErr result (self.new.failed ≡ true) }
        // This is the file at the path of the thread, if there are paths.
        ensures put { OnOk result
            (IfSome self.old.paths
            (λ paths. (path : List ℕ) × (slice_get (map string_bytes paths.now) thread ≡ Some path)
            × HasLast (λ o. (o.thread, D.known_closed o.file)) self.old.each.items self.new.each.items thread path)) }
        // They are the same files of the same folder.
        ensures folder { self.new.folder ≡ self.old.folder }
        ensures paths { self.new.paths ≡ self.old.paths }
    {
        let Some(paths) = self.paths else {
            return Ok(());
        };
        let Some(path) = paths.get(thread) else {
            return Err(self.fail("an output", "it has no path"));
        };
        let path = path.as_str();
        if self.loses_another(path, &paths[..thread]) {
            return Err(self.fail(path, "it is another file of this recording"));
        }
        if self.each.reserve(1).is_err() {
            return Err(self.fail(path, "memory ran out"));
        }
        match written_at(self.folder, path, bytes) {
            Ok(file) => {
                self.each.push_reserved(OutputFile { thread, file });
                Ok(())
            }
            Err(why) => Err(self.fail(path, why)),
        }
    }

    fn name(&self) -> &str {
        self.name
    }

    fn why(&self) -> &str {
        self.why
    }
}
