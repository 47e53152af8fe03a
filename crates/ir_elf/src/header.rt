//! The header of a file, and the headers of its segments.

ghost use Rattle.std.specs.Prelude.{◌≡◌};
ghost use Rattle.ir_bytes.specs.Reading.{field_at};
ghost use Rattle.ir_bytes.specs.Format.{IsRead, fixed};
ghost use Rattle.ir_elf.specs.declared.refusal.Refusal.TheVariants.{Short};
ghost use Rattle.ir_elf.specs.Header.{identified, kind_known, headers_found, headers_place_at, elf_header_at, number_field};

use crate::refusal::Refusal;
use ir_bytes::{byte, bytes, fixed_half, fixed_word, half, word};

const MAGIC: u32 = 0x464C_457F;

const LINKED: u16 = 2;

const RISC_V: u16 = 243;

const HEADER_SIZE: u16 = 32;

const MOST_HEADERS: u16 = 64;

/// Where the program headers begin, and how many there are.
#[derive(Clone, Copy)]
pub struct HeadersPlace {
    pub place: u32,
    pub number: u16,
}

/// A program header: what is where in the file, and where in memory.
#[derive(Clone, Copy)]
pub struct Header {
    pub kind: u32,
    pub place: u32,
    pub address: u32,
    pub length: u32,
    pub size: u32,
    pub flags: u32,
}

// The bytes after the first, which is this one.
#[tactic(auto, unfolding(ir_bytes::specs::Reading::field_at))]
fn fixed_byte(number: u8, bytes: &[u8], other: Refusal) -> Result<&[u8], Refusal>
    ensures { IsRead (λ x. (number, x.now)) result (field_at Short (fixed 1 number other) bytes.now) }
{
    let (found, rest) = byte(bytes, Refusal::Short)?;
    if found == number {
        Ok(rest)
    } else {
        Err(other)
    }
}

// The magic, and a file of 32 bits, little-endian, version 1.
#[tactic(auto, unfolding(crate::specs::Header::identified))]
fn identified(bytes: &[u8]) -> Result<&[u8], Refusal>
    ensures { IsRead (λ x. x.now) result (identified bytes.now) }
{
    let rest = fixed_word(MAGIC, bytes, Refusal::Short, Refusal::Magic)?;
    let rest = fixed_byte(1, rest, Refusal::Class)?;
    let rest = fixed_byte(1, rest, Refusal::Class)?;
    fixed_byte(1, rest, Refusal::Class)
}

// A linked RISC-V program.
#[tactic(auto, unfolding(crate::specs::Header::kind_known))]
fn kind_known(rest: &[u8]) -> Result<&[u8], Refusal>
    ensures { IsRead (λ x. x.now) result (kind_known rest.now) }
{
    let (_, rest) = bytes(9, rest, Refusal::Short)?;
    let rest = fixed_half(LINKED, rest, Refusal::Short, Refusal::Kind)?;
    let rest = fixed_half(RISC_V, rest, Refusal::Short, Refusal::Kind)?;
    fixed_word(1, rest, Refusal::Short, Refusal::Kind)
}

// How many program headers there are.
#[tactic(auto, unfolding(ir_bytes::specs::Reading::field_at))]
fn header_number(bytes: &[u8]) -> Result<(u16, &[u8]), Refusal>
    ensures { IsRead (λ x. (x.0, x.1.now)) result (field_at Short number_field bytes.now) }
{
    let (number, rest) = half(bytes, Refusal::Short)?;
    if 1 <= number && number <= MOST_HEADERS {
        Ok((number, rest))
    } else {
        Err(Refusal::Headers)
    }
}

// Where they are, from the entry on.
#[tactic(auto, unfolding(crate::specs::Header::headers_found))]
fn headers_found(rest: &[u8]) -> Result<HeadersPlace, Refusal>
    ensures { IsRead (λ x. x) result (headers_found rest.now) }
{
    let (_, rest) = bytes(4, rest, Refusal::Short)?;
    let (place, rest) = word(rest, Refusal::Short)?;
    let (_, rest) = bytes(4, rest, Refusal::Short)?;
    let rest = fixed_word(0, rest, Refusal::Short, Refusal::Flags)?;
    let (_, rest) = bytes(2, rest, Refusal::Short)?;
    let rest = fixed_half(HEADER_SIZE, rest, Refusal::Short, Refusal::Headers)?;
    let (number, _) = header_number(rest)?;
    Ok(HeadersPlace { place, number })
}

/// Where the program headers of a file are.
#[tactic(auto, unfolding(crate::specs::Header::headers_place_at))]
pub fn headers_place(file: &[u8]) -> Result<HeadersPlace, Refusal>
    ensures { IsRead (λ x. x) result (headers_place_at file.now) }
{
    let rest = identified(file)?;
    let rest = kind_known(rest)?;
    headers_found(rest)
}

/// A program header, and the bytes after it.
#[tactic(auto, unfolding(crate::specs::Header::elf_header_at))]
pub fn next_header(rest: &[u8]) -> Result<(Header, &[u8]), Refusal>
    ensures { IsRead (λ x. (x.0, x.1.now)) result (elf_header_at rest.now) }
{
    let (kind, rest) = word(rest, Refusal::Short)?;
    let (place, rest) = word(rest, Refusal::Short)?;
    let (address, rest) = word(rest, Refusal::Short)?;
    let (_, rest) = bytes(4, rest, Refusal::Short)?;
    let (length, rest) = word(rest, Refusal::Short)?;
    let (size, rest) = word(rest, Refusal::Short)?;
    let (flags, rest) = word(rest, Refusal::Short)?;
    let (_, rest) = bytes(4, rest, Refusal::Short)?;
    Ok((
        Header {
            kind,
            place,
            address,
            length,
            size,
            flags,
        },
        rest,
    ))
}
