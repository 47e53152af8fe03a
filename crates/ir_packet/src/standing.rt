//! Where the next byte stands.

/// Where the next byte stands: between packets, between `$` and `#`, after `#`, or after a digit.
#[derive(Clone, Copy, Debug, PartialEq, Eq)]
pub enum Standing {
    Between,
    Inside,
    Summing,
    Digit(u8),
}
