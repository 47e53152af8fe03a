//! A version of an object, and one of the words that it has there.

use ir_past::Place;

/// A version of an object of a recorded run, with one of its words.
#[derive(Clone, Copy, Debug, PartialEq, Eq)]
pub struct Worded {
    /// The write entry that made the version. None made the first version, which is the object's first words.
    pub made_by: Option<Place>,
    /// The word.
    pub word: u32,
    /// How many steps its maker took before the last of its steps in the object that put the word; none, if no step did.
    pub step: Option<u64>,
}
