//! The files that the program reads and writes.

ghost use Rattle.std.specs.Prelude.{◌≡◌, ◌≤◌, ℕ, List, Bool, true, false, length, take, Option, Some, None, IfOk, OnOk, OnErr, IfSome};
ghost use Rattle.std.specs.Io.KnownBytes.{Keeps, Appends};
ghost use Rattle.ir_files.specs.Given.{KnownFile, IsAt, fresh, unknown};

use crate::places::Found;
use std::fs::{self, File, OpenOptions};
use std::io::{self, Read, Write};
use std::os::unix::fs::MetadataExt;

/// Files by their paths.
pub trait Folder {
    /// A file that is open.
    type Open: Read + Drop;

    /// What is left of a file that was written, and is closed.
    type Closed: Drop;

    /// The bytes of the file at a path, where they are known.
    ghost bytes_at: { Self → List ℕ → Option (List ℕ) };

    /// Whether it is known which bytes the files that are written were given.
    ghost knows: { Self → Bool };

    /// The path at which a file was made, and the bytes that it was given since, where they are known.
    ghost known: { Self.Open → KnownFile };

    /// The same of one that is closed.
    ghost known_closed: { Self.Closed → KnownFile };

    /// Whether what stood at the first path was put at the second.
    ghost was_put: { Self → List ℕ → List ℕ → Bool };

    /// Opens a file, to be read.
    ///
    /// # Errors
    /// The reason why it can't be.
    fn open(&self, path: &str) -> io::Result<Self::Open>
        ensures { IfOk result (λ file. IfSome (bytes_at self.now path.now) (λ bytes. Self.Open.remaining file ≡ Some bytes)) };

    /// Makes a file, or empties the one that is there, to be written.
    ///
    /// # Errors
    /// The reason why it can't be.
    fn create(&self, path: &str) -> io::Result<Self::Open>
        ensures at { IfOk result (λ file. IsAt (known file) path.now) }
        ensures empty { IfOk result (λ file. (known file).bytes ≡ fresh (knows self.now)) };

    /// Makes a file where nothing is, to be written.
    ///
    /// # Errors
    /// The reason why it can't be: `AlreadyExists` where something is, be it a link that leads nowhere.
    fn create_new(&self, path: &str) -> io::Result<Self::Open>
        ensures at { IfOk result (λ file. IsAt (known file) path.now) }
        ensures empty { IfOk result (λ file. (known file).bytes ≡ fresh (knows self.now)) };

    /// Writes a prefix of the bytes after those that the file was given before, and gives its length.
    ///
    /// # Errors
    /// The reason why it can't: no byte was written.
    fn write(&self, file: &mut Self::Open, bytes: &[u8]) -> io::Result<usize>
        ensures count { IfOk result (λ n. n ≤ length bytes.now) }
        ensures path { (known file.new).path ≡ (known file.old).path }
        ensures bytes { IfOk result (λ n. Appends (known file.old).bytes (known file.new).bytes (take n bytes.now)) }
        ensures kept { OnErr result (Keeps (known file.old).bytes (known file.new).bytes) };

    /// Closes a file.
    fn close(&self, file: Self::Open) -> Self::Closed
        ensures { known_closed result ≡ known file };

    /// Puts a file in another place, over what was there.
    ///
    /// # Errors
    /// The reason why it can't be, and all is as it was.
    fn rename(&self, from: &str, to: &str) -> io::Result<()>
        ensures { OnOk result (was_put self.now from.now to.now ≡ true) };

    /// Removes a file.
    ///
    /// # Errors
    /// The reason why it can't be.
    fn remove(&self, path: &str) -> io::Result<()>;

    /// What is at a path, links followed. Nothing is opened.
    fn found_at(&self, path: &str) -> Found;

    /// Whether something is there that another file may not be put in the place of, as a device or a link.
    fn is_kept(&self, path: &str) -> bool;
}

// Which bytes are at a path, and what becomes of those that are given to the system, is the system's: nothing is known of it.
impl Folder for HostRuntime {
    type Open = File;

    type Closed = ();

    ghost bytes_at = { λ _ _. None };

    ghost knows = { λ _. false };

    ghost known = { λ _. unknown };

    ghost known_closed = { λ _. unknown };

    ghost was_put = { λ _ _ _. true };

    fn open(&self, path: &str) -> io::Result<File> {
        File::open(self, path)
    }

    fn create(&self, path: &str) -> io::Result<File> {
        File::create(self, path)
    }

    fn create_new(&self, path: &str) -> io::Result<File> {
        OpenOptions::new()
            .write(true)
            .create_new(true)
            .open(self, path)
    }

    fn write(&self, file: &mut File, bytes: &[u8]) -> io::Result<usize> {
        file.write(bytes)
    }

    fn close(&self, _file: File) {}

    fn rename(&self, from: &str, to: &str) -> io::Result<()> {
        fs::rename(self, from, to)
    }

    fn remove(&self, path: &str) -> io::Result<()> {
        fs::remove_file(self, path)
    }

    fn found_at(&self, path: &str) -> Found {
        match fs::metadata(self, path) {
            Ok(found) if found.is_file() => Found::File(found.dev(), found.ino()),
            Ok(_) => Found::Other,
            Err(_) => Found::Nothing,
        }
    }

    fn is_kept(&self, path: &str) -> bool {
        match fs::symlink_metadata(self, path) {
            Ok(found) => !found.is_file(),
            Err(_) => false,
        }
    }
}
