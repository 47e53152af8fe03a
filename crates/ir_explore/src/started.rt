//! The objects of a guest at first.

ghost use Rattle.std.specs.Prelude.{◌≤◌};
ghost use Rattle.ir_image.specs.Guest.{most_object_words};

use ir_object::Object;

/// The objects of a guest at first.
#[derive(Clone, Copy)]
pub struct Started<'a> {
    /// How many words each has.
    pub words: usize,
    /// The objects.
    pub first: &'a [Object],
    ghost few: { words ≤ most_object_words },
}
