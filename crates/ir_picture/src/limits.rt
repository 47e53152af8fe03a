//! How large a page may be.

/// The most boxes of a page.
pub const MOST_BOXES: usize = 200_000;
