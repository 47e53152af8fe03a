//! The fields of instructions, made of numbers.

ghost use Rattle.std.specs.Prelude.{◌≡◌, ◌≤◌, ◌<◌, ◌^◌, ◌*◌, ◌%◌};
ghost use Rattle.ir_isa.specs.Fields.{sign_extended, low_bits};
ghost use Rattle.ir_asm.specs.Fields.{even_bits, register_of, immediate_of, branch_offset_of, jump_offset_of, upper_of, shift_amount};

use ir_isa::{BranchOffset, Immediate, JumpOffset, Register, ShiftAmount, UpperImmediate};

// The lowest bits of a number in two's complement.
pub fn low_bits(count: u32, value: i64) -> u32
    requires { count ≤ 32 }
    ensures exact { result ≡ low_bits count value }
    ensures fits { result < 2 ^ count }
{
    let modulus = 1_u64 << count;
    if value < 0 {
        (modulus - 1 - (-(value + 1)) as u64 % modulus) as u32
    } else {
        (value as u64 % modulus) as u32
    }
}

// The lowest bits of a number but the last, which is 0.
fn even_bits(count: u32, value: i64) -> u32
    requires { count ≤ 32 }
    ensures exact { result ≡ even_bits count value }
    ensures fits { result < 2 ^ count }
    ensures even { result % 2 ≡ 0 }
{
    2 * (low_bits(count, value) / 2)
}

// The number that twelve bits encode, the highest being its sign.
fn signed_12(bits: u32) -> Immediate
    requires { bits < 2 ^ 12 }
    ensures { result.value ≡ sign_extended 12 bits }
{
    let value = bits as i32;
    Immediate {
        value: if value < 0x800 { value } else { value - 0x1000 },
    }
}

fn signed_13(bits: u32) -> BranchOffset
    requires fits { bits < 2 ^ 13 }
    requires even { bits % 2 ≡ 0 }
    ensures { result.value ≡ sign_extended 13 bits }
{
    let value = bits as i32;
    BranchOffset {
        value: if value < 0x1000 {
            value
        } else {
            value - 0x2000
        },
    }
}

fn signed_21(bits: u32) -> JumpOffset
    requires fits { bits < 2 ^ 21 }
    requires even { bits % 2 ≡ 0 }
    ensures { result.value ≡ sign_extended 21 bits }
{
    let value = bits as i32;
    JumpOffset {
        value: if value < 0x10_0000 {
            value
        } else {
            value - 0x20_0000
        },
    }
}

fn with_zeros(upper: u32) -> UpperImmediate
    requires { upper < 2 ^ 20 }
    ensures { result.value ≡ 2 ^ 12 * upper }
{
    UpperImmediate { value: upper << 12 }
}

/// The register of a number.
#[tactic(auto, using(crate::proofs::FieldLaws::register_of_number_is))]
pub fn register(number: u8) -> Register
    requires { number < 32 }
    ensures { result ≡ register_of number }
{
    Register { number }
}

/// The immediate of the lowest twelve bits.
#[tactic(auto, using(crate::proofs::FieldLaws::immediate_of_value_is))]
pub fn immediate(value: i64) -> Immediate
    ensures { result ≡ immediate_of value }
{
    signed_12(low_bits(12, value))
}

/// The distance of a branch, which is even.
#[tactic(auto, using(crate::proofs::FieldLaws::branch_offset_of_value))]
pub fn branch_offset(value: i64) -> BranchOffset
    ensures { result ≡ branch_offset_of value }
{
    signed_13(even_bits(13, value))
}

/// The distance of a jump, which is even.
#[tactic(auto, using(crate::proofs::FieldLaws::jump_offset_of_value))]
pub fn jump_offset(value: i64) -> JumpOffset
    ensures { result ≡ jump_offset_of value }
{
    signed_21(even_bits(21, value))
}

/// The value whose upper twenty bits are the lowest of a number.
#[tactic(auto, using(crate::proofs::FieldLaws::upper_of_value))]
pub fn upper(value: i64) -> UpperImmediate
    ensures { result ≡ upper_of value }
{
    with_zeros(low_bits(20, value))
}

/// The amount of a shift.
#[tactic(auto, using(crate::proofs::FieldLaws::amount_of_bits))]
pub fn amount(value: i64) -> ShiftAmount
    ensures { result ≡ shift_amount value }
{
    ShiftAmount {
        bits: low_bits(5, value) as u8,
    }
}
