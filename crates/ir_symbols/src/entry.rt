//! What a line of a map says.

use crate::symbol::Symbol;

/// What a line of a map says.
#[derive(Drop)]
pub enum Entry {
    /// Nothing that is kept.
    Nothing,
    /// A symbol.
    Names(Symbol),
    /// It is no line of a map.
    Faulty,
}
