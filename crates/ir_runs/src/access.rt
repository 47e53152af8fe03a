//! How an object is entered.

/// What an object is entered for.
#[derive(Clone, Copy, Debug, PartialEq, Eq)]
pub enum Access {
    /// Together with others who read.
    Reading,
    /// Alone.
    Writing,
}
