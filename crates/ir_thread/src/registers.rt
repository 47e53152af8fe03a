//! The registers of a call.

/// The register of a call's first argument and of its answer.
pub const A0: u8 = 10;

/// The register of a call's second argument.
pub const A1: u8 = 11;

/// The register of a call's third argument.
pub const A2: u8 = 12;

/// The register of a call's number.
pub const A7: u8 = 17;
