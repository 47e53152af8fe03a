//! Files that a program reads and writes, what it reports on standard error, and its exit status.
#![tactic(auto)]

mod exit_status;
mod files;
mod folder;
mod output_files;
mod places;
mod reason;
mod telling;
mod whole_file;

pub use exit_status::ExitStatus;
pub use files::{FileErr, MOST_FILE_BYTES, MOST_GUEST_INPUT, read_all, read_file};
pub use folder::Folder;
pub use output_files::{OutputFiles, OutputSink, output_paths};
pub use places::{Found, loses};
pub use telling::{tell, tell_of};
pub use whole_file::{WholeFile, WholeSink};
