//! What an instruction reads and writes, and where the code may go on after it.

ghost use Rattle.std.specs.Prelude.{◌≡◌, ◌<◌, ◌%◌, ◌+ℤ◌, ◌&&◌, ◌==◌, ℕ, ◌+◌, pos, nat_lt, nat_le, true, if◌then◌else◌, IfSome};
ghost use Rattle.ir_mach.specs.Core.{next_pc};
ghost use Rattle.ir_mach.specs.Execution.{immediate_result, low_32};
ghost use Rattle.ir_thread.specs.State.{call_of};
ghost use Rattle.ir_thread.specs.declared.profile.Profile.TheVariants.{Two};
ghost use Rattle.ir_liveness.specs.Flow.{argument_count, has_answer, can_go_on, call_limit, call_number, is_one, is_written, reads_register, writes_register, constant_of, AsksAfter, MayGoTo};
ghost use Rattle.ir_liveness.specs.Ways.{LeadsToWord, MayAsk};

use ir_isa::{ImmediateOp, Inst, Register};
use ir_thread::{A0, A7, Call, Profile};

/// One more than the highest number of a call.
pub const CALL_LIMIT: u32 = 14;

/// Where the code may go on.
#[derive(Clone, Copy)]
pub enum Way {
    /// Nowhere.
    Nowhere,
    /// To one pc.
    To(u32),
    /// To each of two.
    Either(u32, u32),
    /// To any word.
    Anywhere,
}

fn argument_count(call: Option<Call>) -> u8
    ensures { result ≡ argument_count call }
{
    match call {
        None => 0,
        Some(Call::End) => 1,
        Some(Call::PutByte) => 1,
        Some(Call::PutNumber) => 1,
        Some(Call::Env(_)) => 0,
        Some(Call::Enter(_)) => 1,
        Some(Call::Leave) => 1,
        Some(Call::Get) => 2,
        Some(Call::Put) => 3,
        Some(Call::OwnNumber) => 0,
        Some(Call::TryWrite) => 1,
    }
}

fn has_answer(call: Option<Call>) -> bool
    ensures { result ≡ has_answer call }
{
    match call {
        None => false,
        Some(Call::End) => false,
        Some(Call::PutByte) => false,
        Some(Call::PutNumber) => false,
        Some(Call::Env(_)) => true,
        Some(Call::Enter(_)) => false,
        Some(Call::Leave) => false,
        Some(Call::Get) => true,
        Some(Call::Put) => false,
        Some(Call::OwnNumber) => true,
        Some(Call::TryWrite) => true,
    }
}

fn can_go_on(call: Option<Call>) -> bool
    ensures { result ≡ can_go_on call }
{
    match call {
        None => false,
        Some(Call::End) => false,
        Some(_) => true,
    }
}

/// The number of the call that a value of a7 asks for; 0, which is no call's, where it asks for none.
pub fn call_number(value: u32) -> u32
    ensures { result ≡ call_number value }
{
    if value < CALL_LIMIT { value } else { 0 }
}

// Whether it is this register.
fn is_one(named: Register, register: u8) -> bool
    ensures { result ≡ is_one named register }
{
    named.number == register
}

// Whether it is this register, and no write to it is lost.
fn is_written(rd: Register, register: u8) -> bool
    ensures { result ≡ is_written rd register }
{
    rd.number == register && 0 < register
}

fn call_reads(number: u32, register: u8) -> bool
    ensures { result ≡ (nat_le 10 register && nat_lt register (10 + argument_count (call_of Two number))) }
{
    A0 <= register && register < A0 + argument_count(Call::of_number(Profile::Two, number))
}

fn call_writes(number: u32, register: u8) -> bool
    ensures { result ≡ ((register == 10) && has_answer (call_of Two number)) }
{
    register == A0 && has_answer(Call::of_number(Profile::Two, number))
}

/// Whether an instruction reads a register, where a7 asks for this call.
pub fn reads(inst: &Inst, number: u32, register: u8) -> bool
    ensures { result ≡ reads_register inst.now number register }
{
    match *inst {
        Inst::Lui { .. } => false,
        Inst::Auipc { .. } => false,
        Inst::Jal { .. } => false,
        Inst::Jalr { rs1, .. } => is_one(rs1, register),
        Inst::Branch { rs1, rs2, .. } => is_one(rs1, register) || is_one(rs2, register),
        Inst::Load { rs1, .. } => is_one(rs1, register),
        Inst::Store { rs1, rs2, .. } => is_one(rs1, register) || is_one(rs2, register),
        Inst::OpImm { rs1, .. } => is_one(rs1, register),
        Inst::Shift { rs1, .. } => is_one(rs1, register),
        Inst::Op { rs1, rs2, .. } => is_one(rs1, register) || is_one(rs2, register),
        Inst::Fence { .. } => false,
        Inst::Ecall => call_reads(number, register),
        Inst::Ebreak => false,
    }
}

/// Whether it writes the register.
pub fn writes(inst: &Inst, number: u32, register: u8) -> bool
    ensures { result ≡ writes_register inst.now number register }
{
    match *inst {
        Inst::Lui { rd, .. } => is_written(rd, register),
        Inst::Auipc { rd, .. } => is_written(rd, register),
        Inst::Jal { rd, .. } => is_written(rd, register),
        Inst::Jalr { rd, .. } => is_written(rd, register),
        Inst::Branch { .. } => false,
        Inst::Load { rd, .. } => is_written(rd, register),
        Inst::Store { .. } => false,
        Inst::OpImm { rd, .. } => is_written(rd, register),
        Inst::Shift { rd, .. } => is_written(rd, register),
        Inst::Op { rd, .. } => is_written(rd, register),
        Inst::Fence { .. } => false,
        Inst::Ecall => call_writes(number, register),
        Inst::Ebreak => false,
    }
}

// An immediate as a word.
fn bits_of(imm: i32) -> u32
    ensures { result ≡ low_32 imm }
{
    imm.cast_unsigned()
}

// The result of an operation of 0 with an immediate.
fn of_zero(op: ImmediateOp, imm: i32) -> u32
    ensures { result ≡ immediate_result op 0 imm }
{
    match op {
        ImmediateOp::Addi => 0u32.wrapping_add(imm.cast_unsigned()),
        ImmediateOp::Slti => (0u32.cast_signed() < imm) as u32,
        ImmediateOp::Sltiu => (0 < bits_of(imm)) as u32,
        ImmediateOp::Xori => 0 ^ bits_of(imm),
        ImmediateOp::Ori => 0 | bits_of(imm),
        ImmediateOp::Andi => 0 & bits_of(imm),
    }
}

// The value that an instruction writes, if it is the same whatever the registers hold, of which x0 holds 0.
fn constant_of(inst: &Inst) -> Option<u32>
    ensures { result ≡ constant_of inst.now }
{
    match *inst {
        Inst::Lui { imm, .. } => Some(imm.value),
        Inst::Auipc { .. } => None,
        Inst::Jal { .. } => None,
        Inst::Jalr { .. } => None,
        Inst::Branch { .. } => None,
        Inst::Load { .. } => None,
        Inst::Store { .. } => None,
        Inst::OpImm { op, rs1, imm, .. } => constant_sum(op, rs1, imm.value),
        Inst::Shift { .. } => None,
        Inst::Op { .. } => None,
        Inst::Fence { .. } => None,
        Inst::Ecall => None,
        Inst::Ebreak => None,
    }
}

// What an operation of a register with an immediate gives, if the register is x0.
fn constant_sum(op: ImmediateOp, rs1: Register, imm: i32) -> Option<u32>
    ensures { result ≡ (if rs1.number == 0 then Some (immediate_result op 0 imm) else None) }
{
    if rs1.number == 0 {
        Some(of_zero(op, imm))
    } else {
        None
    }
}

/// Which call a7 asks for after an instruction, if it is known, where it asked for this one before.
pub fn asked_after(inst: &Inst, number: u32) -> Option<u32>
    requires { number < call_limit }
    ensures low { IfSome result (λ known. known < call_limit) }
    ensures asks { (after : ℕ) → MayAsk result after → AsksAfter (writes_register inst.now number 17) (constant_of inst.now) number after }
    ensures only { (after : ℕ) → AsksAfter (writes_register inst.now number 17) (constant_of inst.now) number after → MayAsk result after }
{
    if !writes(inst, number, A7) {
        return Some(number);
    }
    match constant_of(inst) {
        Some(value) => Some(call_number(value)),
        None => None,
    }
}

fn next_pc(pc: u32) -> u32
    ensures { result ≡ next_pc pc }
{
    pc.wrapping_add(4)
}

fn target(pc: u32, offset: i32) -> u32
    ensures { result ≡ low_32 (pos pc +ℤ offset) }
{
    pc.wrapping_add(offset.cast_unsigned())
}

fn call_way(number: u32, pc: u32) -> Way
    requires { pc % 4 ≡ 0 }
    ensures leads { (next : ℕ) → LeadsToWord result next → (can_go_on (call_of Two number) ≡ true) × (next ≡ next_pc pc) }
    ensures only { (next : ℕ) → (can_go_on (call_of Two number) ≡ true) × (next ≡ next_pc pc) → LeadsToWord result next }
{
    if can_go_on(Call::of_number(Profile::Two, number)) {
        Way::To(next_pc(pc))
    } else {
        Way::Nowhere
    }
}

/// Where the code may go on after an instruction at this pc, where a7 asks for this call.
pub fn way_after(inst: &Inst, number: u32, pc: u32) -> Way
    requires { pc % 4 ≡ 0 }
    ensures leads { (next : ℕ) → LeadsToWord result next → MayGoTo inst.now number pc next }
    ensures only { (next : ℕ) → MayGoTo inst.now number pc next → LeadsToWord result next }
{
    match *inst {
        Inst::Lui { .. } => Way::To(next_pc(pc)),
        Inst::Auipc { .. } => Way::To(next_pc(pc)),
        Inst::Jal { offset, .. } => Way::To(target(pc, offset.value)),
        Inst::Jalr { .. } => Way::Anywhere,
        Inst::Branch { offset, .. } => Way::Either(next_pc(pc), target(pc, offset.value)),
        Inst::Load { .. } => Way::To(next_pc(pc)),
        Inst::Store { .. } => Way::To(next_pc(pc)),
        Inst::OpImm { .. } => Way::To(next_pc(pc)),
        Inst::Shift { .. } => Way::To(next_pc(pc)),
        Inst::Op { .. } => Way::To(next_pc(pc)),
        Inst::Fence { .. } => Way::To(next_pc(pc)),
        Inst::Ecall => call_way(number, pc),
        Inst::Ebreak => Way::Nowhere,
    }
}
