//! An event that no run logs beside the others of its trace.

use crate::cause::Cause;

/// An event that breaks a trace's coherence.
#[derive(Clone, Copy, Debug, PartialEq, Eq)]
pub struct Incoherence {
    /// The number of its thread.
    pub thread: u8,
    /// Its place in its thread's log, from 0.
    pub event: u32,
    /// Its first cause.
    pub cause: Cause,
}
