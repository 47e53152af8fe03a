//! Agent expressions: conditions as gdb sends them, in the bytecodes of the GDB manual, appendix 'The GDB Agent Expression Mechanism'.
#![tactic(auto)]

mod arithmetic;
mod evaluate_err;
mod evaluating;
mod fetched;
mod operation;
mod performing;
mod reading;
mod seen;
mod stack;
#[cfg(test)]
mod tests;
mod turn;

pub use evaluate_err::EvaluateErr;
pub use evaluating::{MOST_EXPRESSION_STEPS, evaluate, holds};
pub use seen::Seen;
pub use stack::MOST_STACK;
