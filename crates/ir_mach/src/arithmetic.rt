//! What the arithmetic instructions compute.

ghost use Rattle.std.specs.Prelude.{◌≡◌, ◌<◌, ◌+ℤ◌, ◌-ℤ◌, ◌*ℤ◌, ◌%◌, ◌^◌, pos, int_lt, nat_lt, if◌then◌else◌, IsTrue};
ghost use Rattle.ir_mach.specs.Execution.{signed, low_32, high_32, truth, shifted_left, shifted_right, shifted_right_signed, immediate_result, shift_result, register_result, is_taken};
ghost use Rattle.ir_mach.specs.Effects.{quotient, quotient_unsigned, remainder, remainder_unsigned};

use ir_isa::{BranchOp, ImmediateOp, RegisterOp, ShiftOp};

pub fn plus(a: u32, imm: i32) -> u32
    ensures { result ≡ low_32 (pos a +ℤ imm) }
{
    a.wrapping_add(imm.cast_unsigned())
}

fn bits_of(imm: i32) -> u32
    ensures { result ≡ low_32 imm }
{
    imm.cast_unsigned()
}

fn is_less(a: u32, b: u32) -> bool
    ensures { result ≡ int_lt (signed a) (signed b) }
{
    a.cast_signed() < b.cast_signed()
}

fn is_less_than_immediate(a: u32, imm: i32) -> bool
    ensures { result ≡ int_lt (signed a) imm }
{
    a.cast_signed() < imm
}

fn left(a: u32, amount: u32) -> u32
    requires { amount < 32 }
    ensures { result ≡ shifted_left a amount }
{
    a << amount
}

fn right(a: u32, amount: u32) -> u32
    requires { amount < 32 }
    ensures { result ≡ shifted_right a amount }
{
    a >> amount
}

fn right_signed(a: u32, amount: u32) -> u32
    requires { amount < 32 }
    ensures { result ≡ shifted_right_signed a amount }
{
    (a.cast_signed() >> amount).cast_unsigned()
}

// A register's signed number.
fn signed_wide(a: u32) -> i64
    ensures { result ≡ signed a }
{
    a.cast_signed() as i64
}

fn high_half(product: i64) -> u32
    ensures { result ≡ high_32 product }
{
    (product.cast_unsigned() >> 32) as u32
}

fn product_high(a: u32, b: u32) -> u32
    ensures { result ≡ high_32 (signed a *ℤ signed b) }
{
    high_half(signed_wide(a) * signed_wide(b))
}

fn product_high_mixed(a: u32, b: u32) -> u32
    ensures { result ≡ high_32 (signed a *ℤ pos b) }
{
    high_half(signed_wide(a) * b as i64)
}

fn product_high_unsigned(a: u32, b: u32) -> u32
    ensures { result ≡ high_32 (pos a *ℤ pos b) }
{
    (a as u64 * b as u64 >> 32) as u32
}

fn divided(a: u32, b: u32) -> u32
    ensures { result ≡ quotient a b }
{
    if b == 0 {
        return u32::MAX;
    }
    a.cast_signed()
        .wrapping_div(b.cast_signed())
        .cast_unsigned()
}

fn divided_unsigned(a: u32, b: u32) -> u32
    ensures { result ≡ quotient_unsigned a b }
{
    if b == 0 { u32::MAX } else { a / b }
}

fn left_over(a: u32, b: u32) -> u32
    ensures { result ≡ remainder a b }
{
    if b == 0 {
        return a;
    }
    a.cast_signed()
        .wrapping_rem(b.cast_signed())
        .cast_unsigned()
}

fn left_over_unsigned(a: u32, b: u32) -> u32
    ensures { result ≡ remainder_unsigned a b }
{
    if b == 0 { a } else { a % b }
}

// The result of an operation of a register with an immediate.
#[inline(always)]
pub fn with_immediate(op: ImmediateOp, a: u32, imm: i32) -> u32
    ensures { result ≡ immediate_result op a imm }
{
    match op {
        ImmediateOp::Addi => plus(a, imm),
        ImmediateOp::Slti => is_less_than_immediate(a, imm) as u32,
        ImmediateOp::Sltiu => (a < bits_of(imm)) as u32,
        ImmediateOp::Xori => a ^ bits_of(imm),
        ImmediateOp::Ori => a | bits_of(imm),
        ImmediateOp::Andi => a & bits_of(imm),
    }
}

// The result of a shift by an amount.
#[inline(always)]
pub fn shifted(op: ShiftOp, a: u32, amount: u32) -> u32
    requires { amount < 32 }
    ensures { result ≡ shift_result op a amount }
{
    match op {
        ShiftOp::Slli => left(a, amount),
        ShiftOp::Srli => right(a, amount),
        ShiftOp::Srai => right_signed(a, amount),
    }
}

// The result of an operation of two registers.
#[inline(always)]
pub fn of_registers(op: RegisterOp, a: u32, b: u32) -> u32
    ensures { result ≡ register_result op a b }
{
    match op {
        RegisterOp::Add => a.wrapping_add(b),
        RegisterOp::Sub => a.wrapping_sub(b),
        RegisterOp::Sll => left(a, b % 32),
        RegisterOp::Slt => is_less(a, b) as u32,
        RegisterOp::Sltu => (a < b) as u32,
        RegisterOp::Xor => a ^ b,
        RegisterOp::Srl => right(a, b % 32),
        RegisterOp::Sra => right_signed(a, b % 32),
        RegisterOp::Or => a | b,
        RegisterOp::And => a & b,
        RegisterOp::Mul => a.wrapping_mul(b),
        RegisterOp::Mulh => product_high(a, b),
        RegisterOp::Mulhsu => product_high_mixed(a, b),
        RegisterOp::Mulhu => product_high_unsigned(a, b),
        RegisterOp::Div => divided(a, b),
        RegisterOp::Divu => divided_unsigned(a, b),
        RegisterOp::Rem => left_over(a, b),
        RegisterOp::Remu => left_over_unsigned(a, b),
    }
}

// Whether a branch is taken.
#[inline(always)]
pub fn takes(op: BranchOp, a: u32, b: u32) -> bool
    ensures { result ≡ is_taken op a b }
{
    match op {
        BranchOp::Beq => a == b,
        BranchOp::Bne => a != b,
        BranchOp::Blt => is_less(a, b),
        BranchOp::Bge => !is_less(a, b),
        BranchOp::Bltu => a < b,
        BranchOp::Bgeu => a >= b,
    }
}
