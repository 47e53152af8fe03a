//! Fields at the prefix of bytes, over any type of errors. Each call gives what the field holds, and the bytes after it.

ghost use Rattle.std.specs.Prelude.{◌≡◌, ◌≤◌, ◌+◌, length, IfOk};
ghost use Rattle.ir_bytes.specs.Reading.{number_at, bytes_at, field_at, within};
ghost use Rattle.ir_bytes.specs.Format.{IsRead, fixed};

use byteorder::{ByteOrder, LittleEndian};

/// The first byte.
///
/// # Errors
/// `short` where there is none.
#[tactic(auto, unfolding(crate::specs::Reading::number_at))]
pub fn byte<E: Drop>(bytes: &[u8], short: E) -> Result<(u8, &[u8]), E>
    ensures exact { IsRead (λ x. (x.0, x.1.now)) result (number_at short 1 bytes.now) }
    ensures taken { IfOk result (λ x. length x.1.now + 1 ≡ length bytes.now) }
{
    match bytes {
        [] => Err(short),
        [first, rest @ ..] => Ok((*first, rest)),
    }
}

/// The number of the first two bytes.
///
/// # Errors
/// `short` where there are fewer.
#[tactic(auto, unfolding(crate::specs::Reading::number_at))]
pub fn half<E: Drop>(bytes: &[u8], short: E) -> Result<(u16, &[u8]), E>
    ensures { IsRead (λ x. (x.0, x.1.now)) result (number_at short 2 bytes.now) }
{
    if bytes.len() < 2 {
        return Err(short);
    }
    Ok((LittleEndian::read_u16(bytes), &bytes[2..]))
}

/// The number of the first four bytes.
///
/// # Errors
/// `short` where there are fewer.
#[tactic(auto, unfolding(crate::specs::Reading::number_at))]
pub fn word<E: Drop>(bytes: &[u8], short: E) -> Result<(u32, &[u8]), E>
    ensures exact { IsRead (λ x. (x.0, x.1.now)) result (number_at short 4 bytes.now) }
    ensures taken { IfOk result (λ x. length x.1.now + 4 ≡ length bytes.now) }
{
    if bytes.len() < 4 {
        return Err(short);
    }
    Ok((LittleEndian::read_u32(bytes), &bytes[4..]))
}

/// The number of the first eight bytes.
///
/// # Errors
/// `short` where there are fewer.
#[tactic(auto, unfolding(crate::specs::Reading::number_at))]
pub fn double<E: Drop>(bytes: &[u8], short: E) -> Result<(u64, &[u8]), E>
    ensures { IsRead (λ x. (x.0, x.1.now)) result (number_at short 8 bytes.now) }
{
    if bytes.len() < 8 {
        return Err(short);
    }
    Ok((LittleEndian::read_u64(bytes), &bytes[8..]))
}

/// The first `count` bytes, as they are.
///
/// # Errors
/// `short` where there are fewer.
#[tactic(auto, unfolding(crate::specs::Reading::bytes_at))]
pub fn bytes<E: Drop>(count: usize, bytes: &[u8], short: E) -> Result<(&[u8], &[u8]), E>
    ensures exact { IsRead (λ x. (x.0.now, x.1.now)) result (bytes_at short count bytes.now) }
    ensures count { IfOk result (λ x. length x.0.now ≡ count) }
{
    if bytes.len() < count {
        return Err(short);
    }
    Ok(bytes.split_at(count))
}

/// The first byte, from `low` to `high`.
///
/// # Errors
/// `short` where there is none, `other` where it is outside these limits.
#[tactic(auto, unfolding(crate::specs::Reading::field_at))]
pub fn byte_within<E: Drop>(
    low: u8,
    high: u8,
    bytes: &[u8],
    short: E,
    other: E,
) -> Result<(u8, &[u8]), E>
    ensures { IsRead (λ x. (x.0, x.1.now)) result (field_at short (within 1 low high other) bytes.now) }
{
    let (number, rest) = byte(bytes, short)?;
    if low <= number && number <= high {
        Ok((number, rest))
    } else {
        Err(other)
    }
}

/// The number of the first four bytes, at most `high`.
///
/// # Errors
/// `short` where there are fewer, `other` where it is over this limit.
#[tactic(auto, unfolding(crate::specs::Reading::field_at))]
pub fn word_within<E: Drop>(high: u32, bytes: &[u8], short: E, other: E) -> Result<(u32, &[u8]), E>
    ensures exact { IsRead (λ x. (x.0, x.1.now)) result (field_at short (within 4 0 high other) bytes.now) }
    ensures most { IfOk result (λ x. x.0 ≤ high) }
{
    let (number, rest) = word(bytes, short)?;
    if number <= high {
        Ok((number, rest))
    } else {
        Err(other)
    }
}

/// The number of the first eight bytes, at most `high`.
///
/// # Errors
/// `short` where there are fewer, `other` where it is over this limit.
#[tactic(auto, unfolding(crate::specs::Reading::field_at))]
pub fn double_within<E: Drop>(
    high: u64,
    bytes: &[u8],
    short: E,
    other: E,
) -> Result<(u64, &[u8]), E>
    ensures exact { IsRead (λ x. (x.0, x.1.now)) result (field_at short (within 8 0 high other) bytes.now) }
    ensures most { IfOk result (λ x. x.0 ≤ high) }
{
    let (number, rest) = double(bytes, short)?;
    if number <= high {
        Ok((number, rest))
    } else {
        Err(other)
    }
}

/// The bytes after the first two, which hold this number.
///
/// # Errors
/// `short` where there are fewer, `other` where they hold another number.
#[tactic(auto, unfolding(crate::specs::Reading::field_at))]
pub fn fixed_half<E: Drop>(number: u16, bytes: &[u8], short: E, other: E) -> Result<&[u8], E>
    ensures { IsRead (λ x. (number, x.now)) result (field_at short (fixed 2 number other) bytes.now) }
{
    let (found, rest) = half(bytes, short)?;
    if found == number {
        Ok(rest)
    } else {
        Err(other)
    }
}

/// The bytes after the first four, which hold this number.
///
/// # Errors
/// `short` where there are fewer, `other` where they hold another number.
#[tactic(auto, unfolding(crate::specs::Reading::field_at))]
pub fn fixed_word<E: Drop>(number: u32, bytes: &[u8], short: E, other: E) -> Result<&[u8], E>
    ensures { IsRead (λ x. (number, x.now)) result (field_at short (fixed 4 number other) bytes.now) }
{
    let (found, rest) = word(bytes, short)?;
    if found == number {
        Ok(rest)
    } else {
        Err(other)
    }
}
