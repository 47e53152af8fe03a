//! The disassembler: the one text of a word.
#![tactic(auto)]

mod disassembler;
mod names;

pub use disassembler::disassemble;
