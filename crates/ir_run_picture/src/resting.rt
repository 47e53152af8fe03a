//! A stale write that rests on what was read.

use ir_past::StaleWrite;
use ir_stale_run::Rest;

/// A stale write that rests on what was read.
#[derive(Clone, Copy, Debug, PartialEq, Eq)]
pub struct Resting {
    /// The stale write.
    pub write: StaleWrite,
    /// How it rests.
    pub rest: Rest,
}
