//! The numbers that name something.

ghost use Rattle.std.specs.Prelude.{◌≡◌};
ghost use Rattle.ir_names.specs.Lines.{decimal_in};
ghost use Rattle.ir_symbols.specs.Maps.{address_in};

use hex::FromHex;
use ir_numerals::number_in;

// The most decimal digits of a number.
const MOST_NUMBER_DIGITS: usize = 10;

/// The number that 1 to 10 decimal digits write.
pub fn decimal(word: &[u8]) -> Option<u64>
    ensures { result ≡ decimal_in word.now }
{
    match number_in(MOST_NUMBER_DIGITS, 0, word) {
        Some(number) => Some(number as u64),
        None => None,
    }
}

/// The address that eight hexadecimal digits of either case write.
pub fn address(word: &[u8]) -> Option<u32>
    ensures { result ≡ address_in word.now }
{
    let bytes = <[u8; 4] as FromHex>::from_hex(word).ok()?;
    Some(u32::from_be_bytes(bytes))
}
