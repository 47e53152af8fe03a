//! A machine without its private memory.

ghost use Rattle.std.specs.Prelude.{◌≡◌, slice_index, take};
ghost use Rattle.ir_mach.specs.Pages.{RegisterFile};

use crate::performing::Registers;
use std::marker::Model;

/// How many registers there are, x0 to x31.
pub const REGISTERS: u8 = 32;

/// A machine's pc and its registers x0 to x31; in clauses a `RegisterFile`.
#[derive(Drop)]
pub struct Regs {
    pub(crate) pc: u32,
    pub(crate) registers: Registers,
}

impl Model for Regs {
    ghost Value = { RegisterFile };

    ghost view = { λ r. record { pc = r.pc; registers = take 32 r.registers } };

    ghost invariant = { λ r. slice_index r.registers 0 ≡ 0 };
}
