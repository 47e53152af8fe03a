//! What the segments of a part put there.

ghost use Rattle.std.specs.Prelude.{◌≡◌, ◌≤◌, ◌+◌, ◌%◌, length, map, option_map, IfOk, IfSome};
ghost use Rattle.ir_elf.specs.declared.part.Part.TheVariants.{Code, Table};
ghost use Rattle.ir_elf.specs.Layout.{size_of};
ghost use Rattle.ir_elf.specs.Segments.{seen};
ghost use Rattle.ir_elf.specs.Memory.{over, memory_of, size_in, held_in, greatest, bytes_in, memory_bytes_from, table_of, words_in};

use crate::part::Part;
use crate::segment::Segment;
use byteorder::{ByteOrder, LittleEndian};
use std::alloc::{AllocError, Global};

// Bytes over others from a place on.
fn put_over(all: &mut [u8], place: usize, own: &[u8])
    requires { place + length own.now ≤ length all.old }
    ensures { all.new ≡ over place own.now all.old }
{
    all[place..place + own.len()].copy_from_slice(own);
}

/// A part of memory: what the file holds of the part's segments, and 0 elsewhere.
pub fn memory_of(alloc: Global, part: Part, segments: &[Segment<'_>]) -> Result<Vec<u8>, AllocError>
    ensures exact { IfOk result (λ v. v.items ≡ memory_of part (map seen segments.now)) }
    ensures count { IfOk result (λ v. length v.items ≡ size_of part) }
{
    let mut all = vec![in alloc; 0u8; part.size() as usize]?;
    for segment in segments {
        if segment.part == part {
            put_over(all.as_mut_slice(), segment.place as usize, segment.bytes);
        }
    }
    Ok(all)
}

// How far a segment reaches in a part.
fn size_in(part: Part, segment: Segment<'_>) -> u32
    ensures exact { result ≡ size_in part (seen segment.entry) }
    ensures most { result ≤ size_of part }
{
    if segment.part == part {
        segment.place + segment.size
    } else {
        0
    }
}

// How far what the file holds of a segment reaches in a part.
fn held_in(part: Part, segment: Segment<'_>) -> u32
    ensures exact { result ≡ held_in part (seen segment.entry) }
    ensures most { result ≤ size_of part }
{
    if segment.part == part && !segment.bytes.is_empty() {
        segment.place + segment.bytes.len() as u32
    } else {
        0
    }
}

// How many bytes of memory a segment of a part has.
fn bytes_in(part: Part, segment: Segment<'_>) -> u32
    ensures { result ≡ bytes_in part (seen segment.entry) }
{
    if segment.part == part {
        segment.size
    } else {
        0
    }
}

/// How many bytes of memory the segments of a part have together.
pub fn bytes_of_part(part: Part, segments: &[Segment<'_>]) -> u32
    ensures { result ≡ memory_bytes_from 0 part (map seen segments.now) }
{
    let mut total = 0u32;
    'segments: for segment in segments {
        total = total.saturating_add(bytes_in(part, *segment));
    }
    total
}

/// How many bytes the segments of a part reach to.
pub fn size_of_part(part: Part, segments: &[Segment<'_>]) -> u32
    ensures exact { result ≡ greatest (size_in part) (map seen segments.now) }
    ensures most { result ≤ size_of part }
{
    let mut size = 0;
    for segment in segments {
        size = size_in(part, *segment).max(size);
    }
    size
}

/// How many bytes what the file holds of a part reaches to.
pub fn held_of_part(part: Part, segments: &[Segment<'_>]) -> u32
    ensures exact { result ≡ greatest (held_in part) (map seen segments.now) }
    ensures most { result ≤ size_of part }
{
    let mut held = 0;
    for segment in segments {
        held = held_in(part, *segment).max(held);
    }
    held
}

/// The bytes of the table, if there is one.
pub fn table_of<'a>(segments: &[Segment<'a>]) -> Option<&'a [u8]>
    ensures exact { option_map (λ t. t.now) result ≡ table_of (map seen segments.now) }
    ensures few { IfSome result (λ t. length t.now ≤ size_of Table) }
{
    for segment in segments {
        if segment.part == Part::Table {
            return Some(segment.bytes);
        }
    }
    None
}

/// The words of these bytes.
pub fn words_of(alloc: Global, bytes: &[u8]) -> Result<Vec<u32>, AllocError>
    requires whole { length bytes.now % 4 ≡ 0 }
    requires few { length bytes.now ≤ size_of Code }
    ensures { IfOk result (λ v. v.items ≡ words_in bytes.now) }
{
    let mut words = vec![in alloc; 0u32; bytes.len() / 4]?;
    LittleEndian::read_u32_into(bytes, &mut words);
    Ok(words)
}
