//! Standard streams that are closed as the program starts.

use std::fs::{File, OpenOptions};
use std::io;
use std::os::fd::AsFd;

// A file in the place of a closed stream: it gets the lowest free number, which is the stream's where those below it are
// in use.
fn stand_in(rt: &HostRuntime, stream: &impl AsFd, how: &OpenOptions) -> io::Result<Option<File>> {
    match stream.as_fd().try_clone_to_owned() {
        Ok(_) => Ok(None),
        Err(_) => Ok(Some(how.open(rt, "/dev/null")?)),
    }
}

/// What replaces closed standard streams while it is kept, so that no other file gets the number of one, and takes
/// what is meant for it. Reading and writing such a stream fails, as it does where it is closed.
///
/// # Errors
/// A stream is closed and nothing can replace it.
pub fn stand_ins(rt: &HostRuntime) -> io::Result<[Option<File>; 3]> {
    let mut unread = OpenOptions::new();
    unread.write(true);
    let mut unwritten = OpenOptions::new();
    unwritten.read(true);
    Ok([
        stand_in(rt, &rt.stdin(), &unread)?,
        stand_in(rt, &rt.stdout(), &unwritten)?,
        stand_in(rt, &rt.stderr(), &unwritten)?,
    ])
}
