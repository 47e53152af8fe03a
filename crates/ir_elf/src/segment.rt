//! A segment of a file.

ghost use Rattle.std.specs.Prelude.{◌≡◌, ◌+◌, ◌≤◌, length};
ghost use Rattle.ir_elf.specs.Layout.{size_of};

use crate::part::Part;

/// What is loaded into a part of a guest, within the part's limits.
#[derive(Clone, Copy)]
pub struct Segment<'a> {
    pub part: Part,
    /// How far from the start of the part it begins.
    pub place: u32,
    /// How many bytes it has in memory.
    pub size: u32,
    /// What the file holds of them, from the first.
    pub bytes: &'a [u8],
    ghost within: { place + size ≤ size_of part },
    ghost held: { length bytes.now ≤ size },
}
