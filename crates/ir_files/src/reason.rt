//! Why a call on a file failed, in words.

use std::io::ErrorKind;

/// The reason that a kind of error is, in words that take no memory.
pub fn reason(kind: ErrorKind) -> &'static str {
    match kind {
        ErrorKind::NotFound => "no such file or folder",
        ErrorKind::PermissionDenied => "permission denied",
        ErrorKind::IsADirectory => "it is a folder",
        ErrorKind::NotADirectory => "its path goes through what is no folder",
        ErrorKind::ReadOnlyFilesystem => "the file system is read-only",
        ErrorKind::StorageFull | ErrorKind::QuotaExceeded => "no space is left",
        ErrorKind::FileTooLarge => "it would be too large",
        ErrorKind::InvalidFilename => "it can't be a file's name",
        ErrorKind::FilesystemLoop => "its links go round in a circle",
        ErrorKind::BrokenPipe => "nobody reads it",
        ErrorKind::CrossesDevices => "it would cross devices",
        _ => "the system refuses",
    }
}
