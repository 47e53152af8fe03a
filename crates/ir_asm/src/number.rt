//! Numbers as they are written.

ghost use Rattle.std.specs.Prelude.{◌≡◌, ◌<◌, ◌^◌, IfSome};
ghost use Rattle.ir_asm.specs.Text.{natural, source_number};
ghost use Rattle.ir_asm.specs.Operands.{operand_distance_text};

use ir_numerals::number_in;

const MOST_DECIMAL: usize = 10;

const MOST_HEXADECIMAL: usize = 8;

// The number without sign that a text says.
fn natural(text: &[u8]) -> Option<u64>
    ensures exact { result ≡ natural text.now }
    ensures small { IfSome result (λ n. n < 2 ^ 40) }
{
    number_in(MOST_DECIMAL, MOST_HEXADECIMAL, text).map(|n| n as u64)
}

/// The number that a text says, with or without a minus sign.
pub fn number(text: &[u8]) -> Option<i64>
    ensures { result ≡ source_number text.now }
{
    match text {
        [b'-', digits @ ..] => natural(digits).map(|n| -(n as i64)),
        _ => natural(text).map(|n| n as i64),
    }
}

/// The distance that a text says, which is `.+` or `.-` and a number without sign.
pub fn distance(text: &[u8]) -> Option<i64>
    ensures { result ≡ operand_distance_text text.now }
{
    match text {
        [b'.', b'+', digits @ ..] => natural(digits).map(|n| n as i64),
        [b'.', b'-', digits @ ..] => natural(digits).map(|n| -(n as i64)),
        _ => None,
    }
}
