//! A thread that read an object and then wrote it.

use crate::span::Span;
use ir_event_walk::Exchange;
use ir_thread::Thread;

/// What is kept of a thread from its read entry of an object to the leave after its write entry.
#[derive(Drop)]
pub struct Kept {
    /// The thread behind its read entry, if it is copied.
    pub thread: Option<Thread>,
    /// The object.
    pub object: u8,
    /// Its words behind the read entry.
    pub was: Vec<u32>,
    /// Its words behind the write entry.
    pub now: Vec<u32>,
    /// What the thread asked since, and was answered.
    pub calls: Vec<Exchange>,
}

/// A row between its read entry and the leave after its write entry.
#[derive(Drop)]
pub struct Open {
    /// Its positions.
    pub span: Span,
    /// What is kept of its thread.
    pub kept: Kept,
}
