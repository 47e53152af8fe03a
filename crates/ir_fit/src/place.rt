//! A step that enters or leaves an object.

use std::mem::size_of;

/// A step by which a thread entered or left an object.
#[derive(Clone, Copy, Debug, PartialEq, Eq)]
pub struct Place {
    /// How many steps the thread took before.
    pub position: u64,
    /// The version of the object that was entered or left.
    pub version: u32,
    /// The thread's number.
    pub thread: u8,
}

const _: () = prove!(size_of::<Place>() == 16);
