//! One machine of RV32IM: its registers, its private memory, and what each instruction does to it.
#![tactic(auto)]

mod arithmetic;
mod effect;
mod execute;
mod laws;
mod mach;
mod marked;
mod memory;
mod outcome;
mod performing;
mod regs;
mod run;
mod unmarked;

pub use laws::{built_again, steps_together};
pub use mach::{MEMORY_PAGES, Mach, PAGE_SIZE, joined};
pub use marked::MarkedCode;
pub use outcome::{Fault, Ran};
pub use regs::{REGISTERS, Regs};
