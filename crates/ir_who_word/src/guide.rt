//! What a walk over a recorded run that looks at a word of an object goes by.

use crate::object_word::ObjectWord;
use ir_event_walk::Route;
use ir_who::Version;

/// A recorded run, and the word that is looked at on a walk over it.
#[derive(Clone, Copy)]
pub struct Guide<'a, 'b> {
    /// The run.
    pub route: Route<'a>,
    /// The versions of the object.
    pub rows: &'b [Version],
    /// The word.
    pub word: ObjectWord,
}
