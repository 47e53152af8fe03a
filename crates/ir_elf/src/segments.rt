//! Reading the segments of a file.

ghost use Rattle.std.specs.Prelude.{◌≡◌, ◌≤◌, ◌+◌, map, length, option_map, IfOk};
ghost use Rattle.ir_bytes.specs.Reading.{fields_at};
ghost use Rattle.ir_bytes.specs.Format.{IsRead};
ghost use Rattle.ir_elf.specs.Layout.{layout_start, size_of};
ghost use Rattle.ir_elf.specs.Refusal.{YieldsOrRefuses};
ghost use Rattle.ir_elf.specs.Header.{elf_header_at};
ghost use Rattle.ir_elf.specs.Segments.{seen, segment_end, is_within_segment, part_of, segment_bytes_from, is_refused, is_loaded};
ghost use Rattle.ir_elf.specs.Segments.{is_placed, is_protected, segment_at, loaded_at, segments_from, segments_at};

use crate::elf_err::ElfErr;
use crate::header::{Header, headers_place, next_header};
use crate::part::Part;
use crate::refusal::Refusal;
use crate::segment::Segment;
use ir_bytes::bytes;
use std::alloc::Global;

const LOADED: u32 = 1;

const DYNAMIC: u32 = 2;

const INTERPRETER: u32 = 3;

const THREAD_LOCAL: u32 = 7;

// Whether `size` bytes from an address are within a part.
fn is_within(part: Part, address: u32, size: u32) -> bool
    ensures { result ≡ is_within_segment part address size }
{
    let (start, most) = (part.start(), part.size());
    start <= address && size <= most && address - start <= most - size
}

// A segment of the table begins with it and is as long in the file as in memory.
fn is_placed(part: Part, header: Header) -> bool
    ensures { result ≡ is_placed part header }
{
    match part {
        Part::Table => header.address == part.start() && header.length == header.size,
        _ => true,
    }
}

// A segment of the code isn't writable.
fn is_protected(part: Part, flags: u32) -> bool
    ensures { result ≡ is_protected part flags }
{
    match part {
        Part::Code => flags / 2 % 2 == 0,
        _ => true,
    }
}

// The part in which a segment is.
fn part_of(header: Header) -> Result<Part, Refusal>
    ensures exact { IsRead (λ x. x) result (part_of header) }
    ensures start { IfOk result (λ p. layout_start p ≤ header.address) }
    ensures within { IfOk result (λ p. header.address + header.size ≤ layout_start p + size_of p) }
    ensures held { IfOk result (λ p. header.length ≤ header.size) }
{
    if header.length > header.size {
        return Err(Refusal::Outside);
    }
    let part = if is_within(Part::Code, header.address, header.size) {
        Part::Code
    } else if is_within(Part::Memory, header.address, header.size) {
        Part::Memory
    } else if is_within(Part::Table, header.address, header.size) {
        Part::Table
    } else {
        return Err(Refusal::Outside);
    };
    if is_placed(part, header) {
        Ok(part)
    } else {
        Err(Refusal::Outside)
    }
}

// `count` bytes from a place of the file on.
#[tactic(auto, unfolding(crate::specs::Segments::segment_bytes_from))]
fn bytes_from(place: u32, count: u32, file: &[u8]) -> Result<&[u8], Refusal>
    ensures exact { IsRead (λ x. x.now) result (segment_bytes_from place count file.now) }
    ensures count { IfOk result (λ x. length x.now ≡ count) }
{
    let (_, rest) = bytes(place as usize, file, Refusal::Short)?;
    let (own, _) = bytes(count as usize, rest, Refusal::Short)?;
    Ok(own)
}

// The segment of a header, after segments that end at an address.
#[tactic(auto, unfolding(crate::specs::Segments::segment_at))]
fn segment<'a>(file: &'a [u8], last: u32, header: Header) -> Result<Segment<'a>, Refusal>
    ensures { IsRead seen result (segment_at file.now last header) }
{
    let bytes = bytes_from(header.place, header.length, file)?;
    let part = part_of(header)?;
    if header.address < last {
        return Err(Refusal::Order);
    }
    if !is_protected(part, header.flags) {
        return Err(Refusal::Writable);
    }
    Ok(Segment {
        part,
        place: header.address - part.start(),
        size: header.size,
        bytes,
    })
}

// The same, if the header is of a segment that is loaded.
fn loaded<'a>(file: &'a [u8], last: u32, header: Header) -> Result<Option<Segment<'a>>, Refusal>
    ensures { IsRead (λ s. option_map seen s) result (loaded_at file.now last header) }
{
    match header.kind {
        DYNAMIC | INTERPRETER | THREAD_LOCAL => Err(Refusal::Dynamic),
        LOADED if header.size > 0 => Ok(Some(segment(file, last, header)?)),
        _ => Ok(None),
    }
}

// The address after the last of a segment.
fn end(segment: Segment<'_>) -> u32
    ensures { result ≡ segment_end (seen segment.entry) }
{
    segment.part.start() + segment.place + segment.size
}

// `count` headers, and the bytes after them.
fn headers(alloc: Global, count: u16, bytes: &[u8]) -> Result<(Vec<Header>, &[u8]), ElfErr>
    ensures { YieldsOrRefuses (λ x. (x.0.items, x.1.now)) result (fields_at elf_header_at count bytes.now) }
{
    let mut headers = Vec::new(alloc);
    let mut rest = bytes;
    for _ in 0..count {
        let (header, after) = next_header(rest)?;
        headers.push(header)?;
        rest = after;
    }
    Ok((headers, rest))
}

// The segments of these headers.
fn segments_of<'a>(
    alloc: Global,
    file: &'a [u8],
    headers: &[Header],
) -> Result<Vec<Segment<'a>>, ElfErr>
    ensures { YieldsOrRefuses (λ v. map seen v.items) result (segments_from file.now 0 headers.now) }
{
    let mut segments = Vec::new(alloc);
    let mut last = 0;
    for header in headers {
        if let Some(segment) = loaded(file, last, *header)? {
            last = end(segment);
            segments.push(segment)?;
        }
    }
    Ok(segments)
}

/// The segments of a file in their order.
#[tactic(auto, unfolding(crate::specs::Segments::segments_at))]
pub fn segments<'a>(alloc: Global, file: &'a [u8]) -> Result<Vec<Segment<'a>>, ElfErr>
    ensures { YieldsOrRefuses (λ v. map seen v.items) result (segments_at file.now) }
{
    let found = headers_place(file)?;
    let (_, rest) = bytes(found.place as usize, file, Refusal::Short)?;
    let (headers, _) = headers(alloc, found.number, rest)?;
    segments_of(alloc, file, headers.as_slice())
}
