//! What a fetch answers.

use ir_isa::Inst;

/// What is in the code at a pc.
#[derive(Clone, Copy, Debug, PartialEq, Eq)]
pub enum Fetched {
    /// The pc is outside the code.
    Outside,
    /// The word there is no instruction.
    Illegal,
    /// The instruction whose word is there.
    Found(Inst),
}
