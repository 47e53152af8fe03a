//! Files that are in their place only once they are whole.

ghost use Rattle.std.specs.Prelude.{◌≡◌, ◌≤◌, ℕ, List, Bool, [], length, take, Ok, IfOk, OnOk, OnErr, IfSome, false, true};
ghost use Rattle.std.specs.Io.KnownBytes.{Keeps, Appends};
ghost use Rattle.std.proofs.Props.{props};
ghost use Rattle.ir_stream.specs.Answers.{AppendsPrefix};
ghost use Rattle.ir_files.specs.Given.{IsAt, fresh, given_bytes, is_put, path_made, stands_at};

use crate::files::{put, put_all};
use crate::folder::Folder;
use crate::reason::reason;
use ir_stream::{DeviceErr, Sink};
use std::alloc::{AllocError, Global};
use std::io::ErrorKind;

/// A sink whose bytes may be elsewhere until they are whole.
pub trait WholeSink: Sink {
    /// What its bytes go to.
    ghost Home: { Type 0 };

    /// The same, whatever it takes.
    ghost home: { Self → Home };

    /// Whether they are whole and in their place.
    ghost whole: { Self → Bool };

    /// What messages call it.
    ghost called: { Self → List ℕ };

    /// Why it failed, if it did.
    ghost cause: { Self → List ℕ };

    /// Takes bytes, the last ones: all that it took is in its place from then on.
    ///
    /// # Errors
    /// They can't be written, or not be put there. The sink has failed, and took a prefix of them.
    fn put_whole(&mut self, bytes: &[u8]) -> Result<(), DeviceErr>
        ensures all { OnOk result (Appends (Self.written self.old) (Self.written self.new) bytes.now) }
        ensures whole { OnOk result (whole self.new ≡ true) }
        ensures stays { OnOk result (Self.broken self.new ≡ Self.broken self.old) }
        ensures prefix { OnErr result (AppendsPrefix (Self.written self.old) (Self.written self.new) bytes.now) }
        ensures err { OnErr result (Self.broken self.new ≡ true) }
        ensures home { home self.new ≡ home self.old };

    /// What messages call it.
    fn name(&self) -> &str
        ensures { result.now ≡ called self.now };

    /// Why it failed, if it did.
    fn why(&self) -> &str
        ensures { result.now ≡ cause self.now };
}

// What is added to the name of a place whose file isn't whole.
const PART: &str = ".part";

// How many such names are tried.
const MOST_PARTS: u32 = 1000;

// The most bytes of a file's name, as Linux has it.
const MOST_NAME: usize = 255;

// As much of the path of a place as leaves room for `more` bytes more in its name.
fn shortened(place: &str, more: usize) -> &str {
    let name = place.split('/').last().unwrap_or(place);
    let excess = name.len().saturating_add(more).saturating_sub(MOST_NAME);
    let end = place.len().saturating_sub(excess);
    // A character has at most four bytes.
    let kept = (0..4).find_map(|less| place.get(..end.saturating_sub(less)));
    kept.unwrap_or(place)
}

// The nth path beside a place at which its file may be written until it is whole: `.part` after its name, or `.part` and the
// number from 2 on. As much is left out at the end of its name as would make the whole too long for a file's.
fn path_beside(alloc: Global, place: &str, number: u32) -> Result<String, AllocError> {
    let suffix = match number {
        1 => String::from_str(alloc, PART)?,
        _ => format!(in alloc; "{PART}{number}")?,
    };
    let kept = shortened(place, suffix.len());
    format!(in alloc; "{kept}{suffix}")
}

// A new file beside a place, under the first of its names at which nothing is.
fn made_beside<D: Folder>(alloc: Global, folder: &D, place: &str) -> Result<Made<D>, &'static str>
    ensures at { IfOk result (λ m. IsAt (D.known m.file) (path_made place.now m.beside)) }
    ensures empty { IfOk result (λ m. (D.known m.file).bytes ≡ fresh (D.knows folder.now)) }
{
    for number in 1..=MOST_PARTS {
        let Ok(path) = path_beside(alloc, place, number) else {
            return Err("memory ran out");
        };
        match folder.create_new(path.as_str()) {
            Ok(file) => return Ok(Made {
                file,
                beside: Some(path),
            }),
            Err(error) => {
                if error.kind() != ErrorKind::AlreadyExists {
                    return Err(reason(error.kind()));
                }
            }
        }
    }
    Err("files of all names for its parts are there")
}

// A file that was made at a place, or beside it.
#[derive(Drop)]
struct Made<D: Folder> {
    file: D::Open,
    // The path of what is written beside the place; none where it is written at its place.
    beside: Option<String>,
}

// The file of a place, to which nothing was written yet.
fn made_for<D: Folder>(alloc: Global, folder: &D, place: &str) -> Result<Made<D>, &'static str>
    ensures at { IfOk result (λ m. IsAt (D.known m.file) (path_made place.now m.beside)) }
    ensures empty { IfOk result (λ m. (D.known m.file).bytes ≡ fresh (D.knows folder.now)) }
{
    if !folder.is_kept(place) {
        return made_beside(alloc, folder, place);
    }
    match folder.create(place) {
        Ok(file) => Ok(Made { file, beside: None }),
        Err(error) => Err(reason(error.kind())),
    }
}

// Puts a file that was made beside its place there.
fn put_there<D: Folder>(folder: &D, made: &Made<D>, place: &str) -> Result<(), ErrorKind>
    requires at { IsAt (D.known made.now.file) (path_made place.now made.now.beside) }
    ensures { OnOk result (stands_at (D.was_put folder.now) (D.known made.now.file) place.now ≡ true) }
{
    if let Some(beside) = &made.beside {
        if let Err(error) = folder.rename(beside.as_str(), place) {
            return Err(error.kind());
        }
    }
    Ok(())
}

/// A file that is written beside its place and then put there, over what was there before. Nothing that is there already is
/// written to, or removed: the file beside is a new one. Where a write fails, or putting it there, nothing of it is left and
/// its place is as it was. What is there and is no file, as a device or a link, is written to as it is.
#[derive(Drop)]
pub struct WholeFile<'a, D: Folder> {
    alloc: Global,
    folder: &'a D,
    place: &'a str,
    made: Option<Made<D>>,
    failed: bool,
    why: &'static str,
    whole: bool,
    // It was made at its place, or beside; whole, it is at its place.
    ghost at: { IfSome made (λ m. IsAt (D.known m.file) (path_made place.now m.beside)) } by { Prim.hlevel props },
    ghost put: { whole ≡ true → is_put (D.was_put folder.now) (λ m. D.known m.file) made place.now ≡ true } by { Prim.hlevel props },
}

impl<'a, D: Folder> WholeFile<'a, D> {
    /// The file of a place, to which nothing was written yet.
    pub fn new(alloc: Global, folder: &'a D, place: &'a str) -> WholeFile<'a, D>
        ensures folder { result.folder.now ≡ folder.now }
        ensures place { result.place.now ≡ place.now }
        ensures empty { given_bytes (D.knows result.folder.now) (λ m. D.known m.file) result.made ≡ fresh (D.knows folder.now) }
        ensures works { result.failed ≡ false }
        ensures whole { result.whole ≡ false }
    {
        WholeFile {
            alloc,
            folder,
            place,
            made: None,
            failed: false,
            why: "",
            whole: false,
        }
    }

    // It failed, for this reason, and what was written beside its place goes.
    fn fail(&mut self, why: &'static str) -> DeviceErr
        ensures failed { self.new.failed ≡ true }
        ensures folder { self.new.folder ≡ self.old.folder }
        ensures place { self.new.place ≡ self.old.place }
        ensures made { self.new.made ≡ self.old.made }
    {
        self.failed = true;
        self.why = why;
        if let Some(
            Made {
                beside: Some(beside),
                ..
            },
        ) = &self.made
        {
            let _ = self.folder.remove(beside.as_str());
        }
        DeviceErr
    }

    // Before the first byte: the file is made.
    fn make(&mut self) -> Result<(), DeviceErr>
        ensures folder { self.new.folder ≡ self.old.folder }
        ensures place { self.new.place ≡ self.old.place }
        ensures kept { given_bytes (D.knows self.new.folder.now) (λ m. D.known m.file) self.new.made ≡ given_bytes (D.knows self.old.folder.now) (λ m. D.known m.file) self.old.made }
        ensures stays { OnOk result (self.new.failed ≡ self.old.failed) }
        ensures err { OnErr result (self.new.failed ≡ true) }
    {
        if self.made.is_none() {
            match made_for(self.alloc, self.folder, self.place) {
                Ok(made) => self.made = Some(made),
                Err(why) => return Err(self.fail(why)),
            }
        }
        Ok(())
    }

    // The bytes that were written are whole: the file is put in its place.
    fn finish(&mut self) -> Result<(), DeviceErr>
        ensures kept { given_bytes (D.knows self.new.folder.now) (λ m. D.known m.file) self.new.made ≡ given_bytes (D.knows self.old.folder.now) (λ m. D.known m.file) self.old.made }
        ensures whole { OnOk result (self.new.whole ≡ true) }
        // The file that was given the bytes is at its place: it was made there, or put there.
        ensures put { OnOk result (is_put (D.was_put self.old.folder.now) (λ m. D.known m.file) self.new.made self.old.place.now ≡ true) }
        ensures stays { OnOk result (self.new.failed ≡ self.old.failed) }
        ensures err { OnErr result (self.new.failed ≡ true) }
        ensures folder { self.new.folder ≡ self.old.folder }
        ensures place { self.new.place ≡ self.old.place }
    {
        let put = match &self.made {
            Some(made) => put_there(self.folder, made, self.place),
            None => Err(ErrorKind::NotFound),
        };
        match put {
            Ok(()) => {
                self.whole = true;
                Ok(())
            }
            Err(kind) => Err(self.fail(reason(kind))),
        }
    }

    // Writes bytes to the file, which is made.
    fn give(&mut self, bytes: &[u8]) -> Result<(), DeviceErr>
        ensures all { OnOk result
            (Appends (given_bytes (D.knows self.old.folder.now) (λ m. D.known m.file) self.old.made)
            (given_bytes (D.knows self.new.folder.now) (λ m. D.known m.file) self.new.made) bytes.now) }
        ensures stays { OnOk result (self.new.failed ≡ self.old.failed) }
        ensures prefix { OnErr result
            (AppendsPrefix (given_bytes (D.knows self.old.folder.now) (λ m. D.known m.file) self.old.made)
            (given_bytes (D.knows self.new.folder.now) (λ m. D.known m.file) self.new.made) bytes.now) }
        ensures err { OnErr result (self.new.failed ≡ true) }
        ensures folder { self.new.folder ≡ self.old.folder }
        ensures place { self.new.place ≡ self.old.place }
    {
        let given = match &mut self.made {
            Some(made) => put_all(self.folder, &mut made.file, bytes),
            None => Err(ErrorKind::NotFound),
        };
        match given {
            Ok(()) => Ok(()),
            Err(kind) => Err(self.fail(reason(kind))),
        }
    }
}

impl<D: Folder> Sink for WholeFile<'_, D> {
    ghost written = { λ f. given_bytes (D.knows f.folder.now) (λ m. D.known m.file) f.made };

    ghost broken = { λ f. f.failed };

    fn write(&mut self, bytes: &[u8]) -> Result<usize, DeviceErr>
        ensures count { IfOk result (λ n. n ≤ length bytes.now) }
        ensures some { result ≡ Ok 0 → bytes.now ≡ [] }
        ensures bytes { IfOk result
            (λ n. Appends (given_bytes (D.knows self.old.folder.now) (λ m. D.known m.file) self.old.made)
            (given_bytes (D.knows self.new.folder.now) (λ m. D.known m.file) self.new.made) (take n bytes.now)) }
        ensures stays { OnOk result (self.new.failed ≡ self.old.failed) }
        ensures kept { OnErr result
            (Keeps (given_bytes (D.knows self.old.folder.now) (λ m. D.known m.file) self.old.made)
            (given_bytes (D.knows self.new.folder.now) (λ m. D.known m.file) self.new.made)) }
        ensures err { OnErr result (self.new.failed ≡ true) }
        // It is the file of the same place.
        ensures folder { self.new.folder ≡ self.old.folder }
        ensures place { self.new.place ≡ self.old.place }
    {
        self.make()?;
        let count = match &mut self.made {
            Some(made) => put(self.folder, &mut made.file, bytes),
            None => Err(ErrorKind::NotFound),
        };
        match count {
            Ok(count) => Ok(count),
            Err(kind) => Err(self.fail(reason(kind))),
        }
    }

    fn failed(&self) -> bool {
        self.failed
    }
}

impl<D: Folder> WholeSink for WholeFile<'_, D> {
    ghost Home = { D × List ℕ };

    ghost home = { λ f. (f.folder.now, f.place.now) };

    ghost whole = { λ f. f.whole };

    ghost called = { λ f. f.place.now };

    ghost cause = { λ f. f.why.now };

    fn put_whole(&mut self, bytes: &[u8]) -> Result<(), DeviceErr>
        ensures all { OnOk result
            (Appends (given_bytes (D.knows self.old.folder.now) (λ m. D.known m.file) self.old.made)
            (given_bytes (D.knows self.new.folder.now) (λ m. D.known m.file) self.new.made) bytes.now) }
        ensures whole { OnOk result (self.new.whole ≡ true) }
        // The file that was given the bytes is at its place: it was made there, or put there.
        ensures put { OnOk result (is_put (D.was_put self.old.folder.now) (λ m. D.known m.file) self.new.made self.old.place.now ≡ true) }
        ensures stays { OnOk result (self.new.failed ≡ self.old.failed) }
        ensures prefix { OnErr result
            (AppendsPrefix (given_bytes (D.knows self.old.folder.now) (λ m. D.known m.file) self.old.made)
            (given_bytes (D.knows self.new.folder.now) (λ m. D.known m.file) self.new.made) bytes.now) }
        ensures err { OnErr result (self.new.failed ≡ true) }
        ensures folder { self.new.folder ≡ self.old.folder }
        ensures place { self.new.place ≡ self.old.place }
    {
        self.make()?;
        self.give(bytes)?;
        self.finish()
    }

    fn name(&self) -> &str {
        self.place
    }

    fn why(&self) -> &str {
        self.why
    }
}
