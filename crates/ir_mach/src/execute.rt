//! What each instruction does.

ghost use Rattle.std.specs.Prelude.{◌≡◌, true, ◌+◌, ◌%◌, ◌^◌, pos, ◌+ℤ◌, IsTrue};
ghost use Rattle.ir_isa.specs.declared.inst.Inst.{Inst};
ghost use Rattle.ir_mach.specs.Core.{register, next_pc, Goes, Calls};
ghost use Rattle.ir_mach.specs.Effects.{applied, IsPossible};
ghost use Rattle.ir_mach.specs.Execution.{sum_of, writes, jumps, branches, loads, stores, execute, outcome_of, low_32, is_taken, loaded, stored};

use crate::arithmetic::{of_registers, plus, shifted, takes, with_immediate};
use crate::effect::Effect;
use crate::mach::Mach;
use crate::memory::{load, memory_offset};
use crate::outcome::Fault;
use ir_image::{Code, Fetched};
use ir_isa::{BranchOffset, Immediate, Inst, JumpOffset, LoadOp, Register, StoreOp};

impl Mach {
    // Whether a system call comes next, without the effect of any other instruction.
    #[inline(always)]
    pub(crate) fn is_at_call(&self, code: &Code) -> bool
        ensures { result ≡ true → outcome_of code.now self.now ≡ Calls }
    {
        match code.fetch(self.pc()) {
            Fetched::Found(Inst::Ecall) => true,
            _ => false,
        }
    }

    // What the next instruction does.
    pub(crate) fn effect(&self, code: &Code) -> Effect
        ensures exact { applied result self.now ≡ outcome_of code.now self.now }
        ensures fits { IsPossible result }
    {
        match code.fetch(self.pc()) {
            Fetched::Outside => Effect::End(Fault::OutsideCode),
            Fetched::Illegal => Effect::End(Fault::IllegalWord),
            Fetched::Found(inst) => self.effect_of(code, inst),
        }
    }

    fn effect_of(&self, code: &Code, inst: Inst) -> Effect
        ensures exact { applied result self.now ≡ execute code.now inst self.now }
        ensures fits { IsPossible result }
    {
        match inst {
            Inst::Lui { rd, imm } => self.write(rd, imm.value),
            Inst::Auipc { rd, imm } => self.write(rd, self.pc().wrapping_add(imm.value)),
            Inst::Jal { rd, offset } => self.jump(rd, self.at_jump(offset)),
            Inst::Jalr { rd, rs1, imm } => self.jump(rd, self.sum(rs1, imm) / 2 * 2),
            Inst::Branch {
                op,
                rs1,
                rs2,
                offset,
            } => {
                self.branch(
                    takes(op, self.get(rs1), self.get(rs2)),
                    self.at_branch(offset),
                )
            }
            Inst::Load { op, rd, rs1, imm } => self.load(code, op, rd, self.sum(rs1, imm)),
            Inst::Store { op, rs1, rs2, imm } => {
                self.store(op, self.sum(rs1, imm), self.get(rs2))
            }
            Inst::OpImm { op, rd, rs1, imm } => {
                self.write(rd, with_immediate(op, self.get(rs1), imm.value))
            }
            Inst::Shift {
                op,
                rd,
                rs1,
                amount,
            } => { self.write(rd, shifted(op, self.get(rs1), amount.bits as u32)) }
            Inst::Op { op, rd, rs1, rs2 } => {
                self.write(rd, of_registers(op, self.get(rs1), self.get(rs2)))
            }
            Inst::Fence { .. } => self.go(self.after()),
            Inst::Ecall => Effect::Call,
            Inst::Ebreak => Effect::End(Fault::Breakpoint),
        }
    }

    fn get(&self, rs: Register) -> u32
        ensures { result ≡ register self.now rs.number }
    {
        self.reg(rs.number)
    }

    fn sum(&self, rs1: Register, imm: Immediate) -> u32
        ensures { result ≡ sum_of self.now rs1.number imm.value }
    {
        plus(self.get(rs1), imm.value)
    }

    // The address of the next word.
    fn after(&self) -> u32
        ensures { result ≡ next_pc self.now.pc }
    {
        self.pc().wrapping_add(4)
    }

    fn at_jump(&self, offset: JumpOffset) -> u32
        ensures { result ≡ low_32 (pos self.now.pc +ℤ offset.value) }
    {
        self.pc().wrapping_add(offset.value.cast_unsigned())
    }

    fn at_branch(&self, offset: BranchOffset) -> u32
        ensures { result ≡ low_32 (pos self.now.pc +ℤ offset.value) }
    {
        self.pc().wrapping_add(offset.value.cast_unsigned())
    }

    fn write(&self, rd: Register, value: u32) -> Effect
        ensures exact { applied result self.now ≡ writes self.now rd.number value }
        ensures fits { IsPossible result }
    {
        Effect::Write {
            rd: rd.number,
            value,
            pc: self.after(),
        }
    }

    fn go(&self, pc: u32) -> Effect
        ensures exact { applied result self.now ≡ Goes (record self.now { pc = pc }) }
        ensures fits { IsPossible result }
    {
        Effect::Write {
            rd: 0,
            value: 0,
            pc,
        }
    }

    fn jump(&self, rd: Register, target: u32) -> Effect
        ensures exact { applied result self.now ≡ jumps self.now rd.number target }
        ensures fits { IsPossible result }
    {
        if target % 4 != 0 {
            return Effect::End(Fault::TargetMisaligned);
        }
        Effect::Write {
            rd: rd.number,
            value: self.after(),
            pc: target,
        }
    }

    fn branch(&self, is_taken: bool, target: u32) -> Effect
        ensures exact { applied result self.now ≡ branches self.now is_taken target }
        ensures fits { IsPossible result }
    {
        if !is_taken {
            return self.go(self.after());
        }
        if target % 4 != 0 {
            return Effect::End(Fault::TargetMisaligned);
        }
        self.go(target)
    }

    fn load(&self, code: &Code, op: LoadOp, rd: Register, address: u32) -> Effect
        ensures exact { applied result self.now ≡ loads self.now rd.number (loaded op code.now self.now.memory address) }
        ensures fits { IsPossible result }
    {
        match load(op, code, self.memory(), address) {
            Some(value) => self.write(rd, value),
            None => Effect::End(Fault::BadLoad),
        }
    }

    fn store(&self, op: StoreOp, address: u32, value: u32) -> Effect
        ensures exact { applied result self.now ≡ stores self.now (stored op address value self.now.memory) }
        ensures fits { IsPossible result }
    {
        let width = match op {
            StoreOp::Sb => 1,
            StoreOp::Sh => 2,
            StoreOp::Sw => 4,
        };
        match memory_offset(width, address) {
            Some(offset) if address % width == 0 => Effect::Store { op, offset, value },
            _ => Effect::End(Fault::BadStore),
        }
    }
}
