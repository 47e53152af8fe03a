//! What names are for a request.

/// What names are for a request.
#[derive(Clone, Copy, Debug, PartialEq, Eq)]
pub enum NamesUse {
    /// There is no request, or only a text is printed: no file of names is read.
    Unasked,
    /// The request takes no names.
    NotTaken,
    /// Its lines have names; whether they begin with addresses.
    Named(bool),
}
