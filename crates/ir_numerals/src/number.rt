//! Numbers that digits write.

ghost use Rattle.std.specs.Prelude.{◌≡◌, ◌≤◌, ◌<◌, ◌^◌, length, MatchOption, IfSome, true, false};
ghost use Rattle.std.specs.List.{list_all};
ghost use Rattle.std.specs.Str.Parse.{digits_value};
ghost use Rattle.ir_numerals.specs.Numerals.{numeral, number_in};
ghost use Rattle.ir_numerals.specs.Digits.{is_digit};

const DECIMAL: u32 = 10;

const HEXADECIMAL: u32 = 16;

// The number that the bytes write, if each is a digit of the radix.
fn value(radix: u32, digits: &[u8]) -> Option<u128>
    requires low { 2 ≤ radix }
    requires high { radix ≤ 16 }
    requires short { length digits.now ≤ 20 }
    ensures value { MatchOption result (list_all (is_digit radix) digits.now ≡ false) (λ v. (list_all (is_digit radix) digits.now ≡ true) × (v ≡ digits_value radix digits.now)) }
    ensures small { IfSome result (λ v. v < 16 ^ length digits.now) }
{
    let mut value = 0u128;
    for byte in digits {
        let digit = char::from(*byte).to_digit(radix)?;
        value = value * radix as u128 + digit as u128;
    }
    Some(value)
}

// The number that 1 to `most` digits write.
fn numeral(radix: u32, most: usize, digits: &[u8]) -> Option<u128>
    requires low { 2 ≤ radix }
    requires high { radix ≤ 16 }
    requires short { most ≤ 20 }
    ensures value { result ≡ numeral radix most digits.now }
    ensures small { IfSome result (λ n. n < 16 ^ most) }
{
    if digits.is_empty() || digits.len() > most {
        return None;
    }
    value(radix, digits)
}

/// The number that a text writes in 1 to `decimal` decimal digits, or in `0x` and 1 to `hexadecimal` hexadecimal digits of
/// either case. None of another text.
pub fn number_in(decimal: usize, hexadecimal: usize, text: &[u8]) -> Option<u128>
    requires decimal { decimal ≤ 20 }
    requires hexadecimal { hexadecimal ≤ 20 }
    ensures value { result ≡ number_in decimal hexadecimal text.now }
    // Below 2^40, if there are at most ten digits.
    ensures small { decimal ≤ 10 → hexadecimal ≤ 10 → IfSome result (λ n. n < 2 ^ 40) }
{
    match text {
        [b'0', b'x', digits @ ..] => numeral(HEXADECIMAL, hexadecimal, digits),
        _ => numeral(DECIMAL, decimal, text),
    }
}
