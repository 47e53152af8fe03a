//! A leave of an object.

use ir_runs::Access;

/// A leave of an object by a thread, by a call or after its end.
#[derive(Clone, Copy, Debug, PartialEq, Eq)]
pub struct Leave {
    /// How many steps the thread took before.
    pub position: u64,
    pub object: u8,
    /// What it had entered for.
    pub access: Access,
    /// The version that it left.
    pub version: u32,
}
