//! What an instruction does to a machine.

use crate::outcome::Fault;
use ir_isa::StoreOp;

// What an instruction does, computed before anything is written.
#[derive(Clone, Copy)]
pub enum Effect {
    // The value goes into register rd, and pc to another place.
    Write {
        rd: u8,
        value: u32,
        pc: u32,
    },
    // The lowest bytes of the value go into private memory, and pc to the next word.
    Store {
        op: StoreOp,
        offset: usize,
        value: u32,
    },
    Call,
    End(Fault),
}
