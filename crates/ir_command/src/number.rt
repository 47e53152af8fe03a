//! Numbers of commands.

ghost use Rattle.std.specs.Prelude.{◌≡◌, option_and_then};
ghost use Rattle.ir_command.specs.Commands.{most_small, most_position, number_of, number_up_to};
ghost use Rattle.ir_command.specs.Cuts as cuts;

use crate::command::ByteCount;
use ir_numerals::number_in;

const DECIMAL_DIGITS: usize = 20;

const HEXADECIMAL_DIGITS: usize = 16;

// The number that a word writes in 1 to 20 decimal digits, or in `0x` and 1 to 16 hexadecimal digits of either case.
#[tactic(auto, unfolding(crate::specs::Commands::number_of))]
fn number(word: &[u8]) -> Option<u128>
    ensures { result ≡ number_of word.now }
{
    number_in(DECIMAL_DIGITS, HEXADECIMAL_DIGITS, word)
}

/// The number that a word writes, if it is one of 32 bits.
pub fn parse_u32(word: &[u8]) -> Option<u32>
    ensures { result ≡ number_up_to most_small word.now }
{
    match number(word) {
        Some(value) if value <= u32::MAX as u128 => Some(value as u32),
        _ => None,
    }
}

/// The number that a word writes, if it is one of 64 bits.
pub fn parse_u64(word: &[u8]) -> Option<u64>
    ensures { result ≡ number_up_to most_position word.now }
{
    match number(word) {
        Some(value) if value <= u64::MAX as u128 => Some(value as u64),
        _ => None,
    }
}

/// The number of bytes that a word writes, if one command may show as many.
pub fn byte_count(word: &[u8]) -> Option<ByteCount>
    ensures { result ≡ option_and_then cuts.byte_count (number_of word.now) }
{
    ByteCount::new(number(word)?)
}
