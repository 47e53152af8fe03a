//! The files that the arguments name.

ghost use Rattle.std.specs.Prelude.{◌≡◌, ◌<◌, ◌≤◌, ℕ, [], length, take, IfOk, OnOk, OnErr, IfSome, Ok, Err};
ghost use Rattle.std.specs.Io.KnownBytes.{Keeps, Appends};
ghost use Rattle.ir_stream.specs.Answers.{AppendsPrefix};
ghost use Rattle.ir_files.specs.declared.files.FileErr.TheVariants.{NoMem, TooLong};

use crate::folder::Folder;
use crate::reason::reason;
use std::alloc::{AllocError, Global};
use std::io::{ErrorKind, Read};
use thiserror::Error;

/// The most bytes of a source, an image or a trace.
pub const MOST_FILE_BYTES: u32 = 200_000_000;

/// The most bytes of a file that guests read.
pub const MOST_GUEST_INPUT: u32 = 1_048_576;

/// Why a file was not read.
#[derive(Debug, Drop, Error)]
pub enum FileErr {
    #[error("can't be read: {0}")]
    Unreadable(&'static str),
    #[error("is over {0} bytes")]
    TooLong(u32),
    #[error("doesn't fit into memory")]
    NoMem,
}

impl From<AllocError> for FileErr {
    ghost from_gives = { λ _ e. e ≡ NoMem };

    fn from(_e: AllocError) -> FileErr {
        FileErr::NoMem
    }
}

/// All bytes of a reader, if they are at most `most`.
pub fn read_all<R: Read + Drop>(alloc: Global, reader: R, most: u32) -> Result<Vec<u8>, FileErr>
    ensures all { IfOk result (λ v. IfSome (R.remaining reader) (λ xs. v.items ≡ xs)) }
    ensures few { IfOk result (λ v. length v.items ≤ most) }
    ensures long { (limit : ℕ) → result ≡ Err (TooLong limit) → (limit ≡ most) × IfSome (R.remaining reader) (λ xs. most < length xs) }
{
    let mut bytes = Vec::new(alloc);
    match reader.take(most as u64 + 1).read_to_end(&mut bytes) {
        Ok(_) if bytes.len() > most as usize => Err(FileErr::TooLong(most)),
        Ok(_) => Ok(bytes),
        Err(error) if error.kind() == ErrorKind::OutOfMemory => Err(FileErr::NoMem),
        Err(error) => Err(FileErr::Unreadable(reason(error.kind()))),
    }
}

/// The bytes of a file, which may have `most` at most.
///
/// # Errors
/// No such file, one that can't be read, one of more bytes, or out of memory.
pub fn read_file<D: Folder>(
    alloc: Global,
    folder: &D,
    path: &str,
    most: u32,
) -> Result<Vec<u8>, FileErr>
    ensures all { IfOk result (λ v. IfSome (D.bytes_at folder.now path.now) (λ bytes. v.items ≡ bytes)) }
    ensures few { IfOk result (λ v. length v.items ≤ most) }
    ensures long { (limit : ℕ) → result ≡ Err (TooLong limit) → (limit ≡ most) × IfSome (D.bytes_at folder.now path.now) (λ bytes. most < length bytes) }
{
    match folder.open(path) {
        Ok(file) => read_all(alloc, file, most),
        Err(error) => Err(FileErr::Unreadable(reason(error.kind()))),
    }
}

// Writes a prefix of the bytes, and gives its length: at least one byte, if there are any. Tries again where a signal interrupts it.
pub fn put<D: Folder>(folder: &D, file: &mut D::Open, bytes: &[u8]) -> Result<usize, ErrorKind>
    ensures count { IfOk result (λ n. n ≤ length bytes.now) }
    ensures some { result ≡ Ok 0 → bytes.now ≡ [] }
    ensures path { (D.known file.new).path ≡ (D.known file.old).path }
    ensures bytes { IfOk result (λ n. Appends (D.known file.old).bytes (D.known file.new).bytes (take n bytes.now)) }
    ensures kept { OnErr result (Keeps (D.known file.old).bytes (D.known file.new).bytes) }
{
    for _ in 0..u64::MAX {
        match folder.write(file, bytes) {
            Ok(n) if n > 0 || bytes.is_empty() => return Ok(n),
            Ok(_) => return Err(ErrorKind::WriteZero),
            Err(error) => {
                if error.kind() != ErrorKind::Interrupted {
                    return Err(error.kind());
                }
            }
        }
    }
    Err(ErrorKind::Interrupted)
}

// Writes all of the bytes; where it fails, a prefix of them.
pub fn put_all<D: Folder>(folder: &D, file: &mut D::Open, bytes: &[u8]) -> Result<(), ErrorKind>
    ensures path { (D.known file.new).path ≡ (D.known file.old).path }
    ensures bytes { OnOk result (Appends (D.known file.old).bytes (D.known file.new).bytes bytes.now) }
    ensures prefix { OnErr result (AppendsPrefix (D.known file.old).bytes (D.known file.new).bytes bytes.now) }
{
    let mut rest = bytes;
    while !rest.is_empty() {
        let n = put(folder, file, rest)?;
        rest = &rest[n..];
    }
    Ok(())
}
