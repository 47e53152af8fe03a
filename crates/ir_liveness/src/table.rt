//! The registers that are live at each point of a code.

ghost use Rattle.std.specs.Prelude.{◌≡◌, ◌<◌, IfOk};
ghost use Rattle.ir_liveness.specs.Table.{IsLiveTable, is_marked, kept_value};

use crate::flow::call_number;
use crate::marks::{Marks, is_marked};
use crate::sweep::mark_live;
use ir_image::Code;
use ir_mach::Mach;
use ir_thread::A7;
use std::alloc::{AllocError, Global};
use std::marker::Model;

/// Which registers are live at each point of a code: in clauses the marks, words by their order, of each word the 14
/// calls, of each call the 32 registers.
#[derive(Drop)]
pub struct Live {
    marks: Vec<bool>,
}

impl Model for Live {
    ghost use Rattle.std.specs.Prelude.{Bool, List};

    ghost Value = { List Bool };

    ghost view = { λ l. l.marks.items };
}

impl Live {
    /// The live registers of a code.
    ///
    /// # Errors
    /// Out of memory.
    pub fn of(alloc: Global, code: &Code) -> Result<Live, AllocError>
        ensures { IfOk result (λ live. IsLiveTable code.now live) }
    {
        let mut marks = Marks::new(alloc, code.words().len())?;
        mark_live(code, &mut marks);
        Ok(Live {
            marks: marks.into_list(),
        })
    }

    /// Whether a register is live at this pc, where a7 asks for the call of this number.
    pub fn is_live(&self, pc: u32, number: u32, register: u8) -> bool
        ensures { result ≡ is_marked self.now (record { pc = pc; number = number }) register }
    {
        is_marked(self.marks.as_slice(), pc, number, register)
    }

    /// What is kept of a register: its value if it is live or a7, else 0.
    pub fn kept(&self, mach: &Mach, number: u8) -> u32
        requires { number < 32 }
        ensures { result ≡ kept_value self.now mach.now number }
    {
        let called = call_number(mach.reg(A7));
        if number == A7 || self.is_live(mach.pc(), called, number) {
            mach.reg(number)
        } else {
            0
        }
    }
}
