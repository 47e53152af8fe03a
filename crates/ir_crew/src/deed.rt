//! What a seat's view is made of. No value of these types is made.

use ir_runs::Access;
use std::collections::LinkedList;

/// What one atomic step does to an object: an entry with the version and, for writing, the readers that left it; a leave, with
/// the version that it leaves; a word that is read, or written, with its index.
#[derive(Drop)]
pub enum Deed {
    /// An entry: the access, the version, and the readers that left it.
    Enter(Access, u32, u32),
    /// A try that entered for writing: the version, and the readers that left it.
    Try(u32, u32),
    /// A leave: the access, and the version.
    Leave(Access, u32),
    /// A read: the index, and the word.
    Get(u8, u32),
    /// A write: the index, and the word.
    Put(u8, u32),
}

/// One atomic step on an object.
#[derive(Drop)]
pub struct ObjectStep {
    /// The object's number.
    pub object: u8,
    /// What is done to it.
    pub deed: Deed,
}

/// The object steps of one thread, the oldest first.
#[derive(Drop)]
pub struct Track {
    /// The thread's number.
    pub thread: u8,
    /// Its object steps.
    pub steps: LinkedList<ObjectStep>,
}
