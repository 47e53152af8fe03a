//! Files that would be written over what is read.

ghost use Rattle.std.specs.Prelude.{◌≡◌};
ghost use Rattle.ir_files.specs.Places.{loses};

/// What is at a path.
#[derive(Clone, Copy, Debug, PartialEq, Eq)]
pub enum Found {
    /// Nothing, or nothing that can be looked at.
    Nothing,
    /// A file: the number of its device, and its own there.
    File(u64, u64),
    /// A folder, a device, a pipe: nothing that writing to it loses.
    Other,
}

/// Whether writing at the one path loses the file that is read at the other.
pub fn loses(written: &str, at_written: Found, read: &str, at_read: Found) -> bool
    ensures { result ≡ loses written.now at_written read.now at_read }
{
    match (at_written, at_read) {
        (Found::Nothing, _) => written == read,
        (Found::File(device, number), Found::File(read_device, read_number)) => {
            device == read_device && number == read_number
        }
        _ => false,
    }
}
