//! A write that may rest on a read that was written over.

use crate::place::Place;

/// A write entry whose thread read the object before, at an earlier version, and didn't enter the object between.
#[derive(Clone, Copy, Debug, PartialEq, Eq)]
pub struct StaleWrite {
    /// The thread that read and wrote.
    pub thread: u8,
    /// The write entry, by its place in the thread's log.
    pub event: u32,
    /// The object.
    pub object: u8,
    /// The version that the write entry found.
    pub written: u32,
    /// The read entry, by its place in the thread's log.
    pub read: u32,
    /// The version that was read.
    pub version: u32,
    /// The write entry at the version that was read: the first that wrote over it.
    pub overwritten_by: Place,
}
