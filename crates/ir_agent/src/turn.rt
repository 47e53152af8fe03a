//! Where a step leads.

use crate::evaluate_err::EvaluateErr;

/// The place of the next bytecode, or the end: the value, or why there is none.
#[derive(Clone, Copy, Debug, PartialEq, Eq)]
pub enum Turn {
    Goes(u64),
    Ends(Result<u64, EvaluateErr>),
}
