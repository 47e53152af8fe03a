//! Entries or leaves.

// Which steps are listed: those that enter an object, or those that leave one.
#[derive(Clone, Copy)]
pub enum VisitKind {
    Entries,
    Leaves,
}
