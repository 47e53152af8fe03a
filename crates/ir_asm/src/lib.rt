//! The assembler.
#![tactic(auto)]

mod asm_err;
mod assembler;
mod cause;
mod fields;
mod first_pass;
mod form;
mod item;
mod items;
mod labels;
mod laws;
mod line;
mod number;
mod operand;
mod operands;
mod parts;
mod refusal;
mod register;
mod scan;
mod second_pass;
mod statement;
mod table;
mod text;

pub use asm_err::AsmErr;
pub use assembler::{Assembly, assemble, assemble_with_labels};
pub use cause::Cause;
pub use form::Section;
pub use ir_disasm::disassemble;
pub use item::Place;
pub use labels::Labels;
pub use laws::{examples, first_fault, label_value, second_fault, word_law};
