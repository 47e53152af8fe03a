//! A version of an object, and from which step on it is there.

use crate::version::Version;

/// A version of an object of a recorded run.
#[derive(Clone, Copy, Debug, PartialEq, Eq)]
pub struct Dated {
    /// What is said of it by the trace.
    pub version: Version,
    /// How many steps its maker took before the one by which it left the object.
    pub step: Option<u64>,
}
