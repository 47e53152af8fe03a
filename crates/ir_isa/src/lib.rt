//! The instructions of RV32IM and their words.
#![tactic(auto)]

mod bits;
mod decoder;
mod encoder;
mod inst;
mod laws;
mod names;
mod rows;

pub use decoder::{Illegal, decode};
pub use encoder::encode;
pub use inst::{
    BranchOffset, BranchOp, Immediate, ImmediateOp, Inst, JumpOffset, LoadOp, Register, RegisterOp,
    ShiftAmount, ShiftOp, StoreOp, UpperImmediate,
};
pub use laws::{
    decodes_again, encodes_again, found_by_code, one_instruction, one_word, word_by_code,
    word_has_code,
};
pub use names::reg_name;
