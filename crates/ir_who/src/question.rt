//! What is asked about a trace.

/// The object, and which of its versions.
#[derive(Clone, Copy, Debug, PartialEq, Eq)]
pub struct Question {
    /// The number of the object.
    pub object: u32,
    /// The version; if there is none, all are asked about.
    pub version: Option<u32>,
}
