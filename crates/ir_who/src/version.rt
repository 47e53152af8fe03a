//! A version of an object.

use ir_past::Place;

/// What is said of a version.
#[derive(Clone, Copy, Debug, PartialEq, Eq)]
pub struct Version {
    /// The write entry that made it. None made the first version, which is the object's first words.
    pub made_by: Option<Place>,
    /// How many read entries it has.
    pub readers: usize,
}
