//! A bytecode with the number behind it.

use crate::operation::Operation;

/// A bytecode, the number behind it, 0 if there is none, and the place behind both.
#[derive(Clone, Copy, Debug, PartialEq, Eq)]
pub struct Fetched {
    pub operation: Operation,
    pub number: u64,
    pub next: usize,
}
