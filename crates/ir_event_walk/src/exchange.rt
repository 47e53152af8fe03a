//! A call of a thread, and what it was answered.

use ir_thread::{Ask, Reply};

/// What a thread asked that isn't private, and the reply.
#[derive(Clone, Copy, Debug, PartialEq, Eq)]
pub struct Exchange {
    /// What it asked.
    pub asked: Ask,
    /// What it was answered.
    pub reply: Reply,
}
