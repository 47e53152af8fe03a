//! Hexadecimal numbers and bytes of packets.

ghost use Rattle.std.specs.Prelude.{◌≡◌, ◌≤◌, ◌<◌, ◌+◌, ◌*◌, ◌++◌, ℕ, List, length, vec_len, vec_capacity, is_some, Some, None, IfSome, OnSome};
ghost use Rattle.ir_packet.specs.Numbers.{value_from, number, decimal_digit, decimal_more, decimal_from, decimal_number, digit_index_of, bytes_of_pairs};
ghost use Rattle.ir_packet.specs.Numbers as numbers;

use crate::raw::{digit_value, two_digits};

// The number that digits write behind those that wrote `before`.
#[tactic(auto, unfolding(crate::specs::Numbers::value_from))]
fn value_from(before: u32, digits: &[u8]) -> Option<u32>
    ensures { result ≡ value_from before digits.now }
{
    match digits {
        [] => Some(before),
        [digit, rest @ ..] => {
            let value = u64::from(before) * 16 + u64::from(digit_value(*digit)?);
            if value > u64::from(u32::MAX) {
                return None;
            }
            value_from(value as u32, rest)
        }
    }
}

/// The number below 2^32 that one or more digits write.
#[tactic(auto, unfolding(crate::specs::Numbers::number))]
pub fn number(digits: &[u8]) -> Option<u32>
    ensures { result ≡ number digits.now }
{
    match digits {
        [] => None,
        _ => value_from(0, digits),
    }
}

// A decimal digit, by its code as a pair of digits.
#[tactic(auto, unfolding(crate::specs::Numbers::decimal_digit))]
fn decimal_digit(high: u8, low: u8) -> Option<u8>
    ensures { result ≡ decimal_digit high low }
{
    match two_digits(high, low) {
        Some(code) if 48 <= code && code <= 57 => Some(code - 48),
        _ => None,
    }
}

// The number that a decimal digit writes behind those that wrote `before`.
#[tactic(auto, unfolding(crate::specs::Numbers::decimal_more))]
fn decimal_more(before: u32, high: u8, low: u8) -> Option<u32>
    ensures { result ≡ decimal_more before high low }
{
    let value = u64::from(before) * 10 + u64::from(decimal_digit(high, low)?);
    if value > u64::from(u32::MAX) {
        return None;
    }
    Some(value as u32)
}

// The number that decimal digits write behind those that wrote `before`, the code of each as a pair of digits.
#[tactic(auto, unfolding(crate::specs::Numbers::decimal_from))]
fn decimal_from(before: u32, digits: &[u8]) -> Option<u32>
    ensures { result ≡ decimal_from before digits.now }
{
    match digits {
        [] => Some(before),
        [high, digits @ ..] => match digits {
            [] => None,
            [low, digits @ ..] => decimal_from(decimal_more(before, *high, *low)?, digits),
        },
    }
}

/// The number below 2^32 that one or more decimal digits write, the code of each as a pair of digits.
#[tactic(auto, unfolding(crate::specs::Numbers::decimal_number))]
pub fn decimal_number(digits: &[u8]) -> Option<u32>
    ensures { result ≡ decimal_number digits.now }
{
    match digits {
        [] => None,
        _ => decimal_from(0, digits),
    }
}

/// How many bytes are before the first of these.
#[tactic(auto, unfolding(crate::specs::Numbers::digit_index_of))]
pub fn index_of(mark: u8, bytes: &[u8]) -> usize
    ensures value { result ≡ digit_index_of mark bytes.now }
    ensures within { result ≤ length bytes.now }
{
    match bytes {
        [first, rest @ ..] if *first != mark => index_of(mark, rest) + 1,
        _ => 0,
    }
}

/// Whether they are pairs of digits.
#[tactic(auto, unfolding(crate::specs::Numbers::are_pairs))]
pub fn are_pairs(digits: &[u8]) -> bool
    ensures { result ≡ numbers.are_pairs digits.now }
{
    match digits {
        [] => true,
        [high, low, rest @ ..] => two_digits(*high, *low).is_some() && are_pairs(rest),
        _ => false,
    }
}

/// Puts the bytes that pairs of digits write at the end.
#[tactic(auto, unfolding(crate::specs::Numbers::bytes_of_pairs))]
pub fn put_bytes(out: &mut Vec<u8>, digits: &[u8])
    requires room { vec_len out.old + length digits.now ≤ vec_capacity out.old }
    ensures bytes { out.new.items ≡ out.old.items ++ bytes_of_pairs digits.now }
    ensures capacity { vec_capacity out.new ≡ vec_capacity out.old }
{
    if let [high, low, rest @ ..] = digits {
        if let Some(byte) = two_digits(*high, *low) {
            out.push_reserved(byte);
        }
        put_bytes(out, rest);
    }
}
