//! How a thread would have acted otherwise.

/// What a thread would have done otherwise, if it had read what was there when it wrote.
#[derive(Clone, Copy, Debug, PartialEq, Eq)]
pub enum Reason {
    /// It would have put another value into the object that it wrote.
    Value,
    /// It would have come to another call, object or word, or hasn't come to the same within its steps.
    Way,
}
