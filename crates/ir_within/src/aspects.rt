//! What of an outcome counts.

/// What of an outcome counts.
#[derive(Clone, Copy)]
pub struct Aspects<'a> {
    /// What each thread printed.
    pub outputs: bool,
    /// How each thread ended, with its code.
    pub ends: bool,
    /// The words of these objects, in this order; or of all.
    pub objects: Option<&'a [u8]>,
}
