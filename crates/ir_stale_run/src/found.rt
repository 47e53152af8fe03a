//! What is found of a row.

use crate::rest::Rest;

/// What is found of a row on a walk.
#[derive(Clone, Copy, Debug, PartialEq, Eq)]
pub enum Found {
    /// A copy of its thread is needed.
    Unknown,
    /// How its write rests on its read, if it does.
    Known(Option<Rest>),
}
