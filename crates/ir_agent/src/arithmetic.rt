//! What the bytecodes compute.

ghost use Rattle.std.specs.Prelude.{◌≡◌, int_lt};
ghost use Rattle.ir_agent.specs.Arithmetic.{signed_64, shifted_left_64, shifted_right_64, shifted_right_signed_64, zero_filled, sign_filled};
ghost use Rattle.ir_agent.specs.Arithmetic as arithmetic;

use crate::operation::{Binary, Unary};

fn shifted_left(a: u64, amount: u64) -> u64
    ensures { result ≡ shifted_left_64 a amount }
{
    if amount < 64 { a << amount } else { 0 }
}

fn shifted_right(a: u64, amount: u64) -> u64
    ensures { result ≡ shifted_right_64 a amount }
{
    if amount < 64 { a >> amount } else { 0 }
}

fn shifted_right_signed(a: u64, amount: u64) -> u64
    ensures { result ≡ shifted_right_signed_64 a amount }
{
    if a < 1 << 63 {
        return shifted_right(a, amount);
    }
    u64::MAX - shifted_right(u64::MAX - a, amount)
}

fn is_less(a: u64, b: u64) -> bool
    ensures { result ≡ int_lt (signed_64 a) (signed_64 b) }
{
    a.cast_signed() < b.cast_signed()
}

fn divided(a: u64, b: u64) -> Option<u64>
    ensures { result ≡ arithmetic.binary_value Binary.DivideSigned a b }
{
    if b == 0 {
        return None;
    }
    Some(
        a.cast_signed()
            .wrapping_div(b.cast_signed())
            .cast_unsigned(),
    )
}

fn left_over(a: u64, b: u64) -> Option<u64>
    ensures { result ≡ arithmetic.binary_value Binary.RemainderSigned a b }
{
    if b == 0 {
        return None;
    }
    Some(
        a.cast_signed()
            .wrapping_rem(b.cast_signed())
            .cast_unsigned(),
    )
}

/// What a bytecode makes of two numbers; none by 0.
pub fn binary_value(operation: Binary, a: u64, b: u64) -> Option<u64>
    ensures { result ≡ arithmetic.binary_value operation a b }
{
    match operation {
        Binary::Add => Some(a.wrapping_add(b)),
        Binary::Subtract => Some(a.wrapping_sub(b)),
        Binary::Multiply => Some(a.wrapping_mul(b)),
        Binary::DivideSigned => divided(a, b),
        Binary::DivideUnsigned => a.checked_div(b),
        Binary::RemainderSigned => left_over(a, b),
        Binary::RemainderUnsigned => a.checked_rem(b),
        Binary::ShiftLeft => Some(shifted_left(a, b)),
        Binary::ShiftRightSigned => Some(shifted_right_signed(a, b)),
        Binary::ShiftRightUnsigned => Some(shifted_right(a, b)),
        Binary::And => Some(a & b),
        Binary::Or => Some(a | b),
        Binary::Xor => Some(a ^ b),
        Binary::Equal => Some((a == b) as u64),
        Binary::LessSigned => Some(is_less(a, b) as u64),
        Binary::LessUnsigned => Some((a < b) as u64),
    }
}

fn zero_extended(bits: u64, a: u64) -> u64
    ensures { result ≡ zero_filled bits a }
{
    if bits < 64 { a % (1 << bits) } else { a }
}

fn extended(bits: u64, a: u64) -> u64
    ensures { result ≡ sign_filled bits a }
{
    if bits >= 64 {
        return a;
    }
    let low = a % (1 << bits);
    let half = if bits == 0 { 1 } else { 1 << (bits - 1) };
    if low < half {
        return low;
    }
    u64::MAX - ((1 << bits) - 1 - low)
}

/// What a bytecode makes of one number, with the number behind it.
pub fn unary_value(operation: Unary, number: u64, a: u64) -> u64
    ensures { result ≡ arithmetic.unary_value operation number a }
{
    match operation {
        Unary::LogicalNot => (a == 0) as u64,
        Unary::BitwiseNot => !a,
        Unary::Extend => extended(number, a),
        Unary::ZeroExtend => zero_extended(number, a),
    }
}
