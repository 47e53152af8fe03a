//! Bytes of which some are others.

use std::alloc::{AllocError, Global};

/// The bytes before a place, others, and the bytes from a second place on.
pub type Patch = (usize, &'static [u8], usize);

/// All bytes as they are.
pub const UNPATCHED: Patch = (0, &[], 0);

/// The bytes with those others.
pub fn patched(alloc: Global, bytes: &[u8], patch: Patch) -> Result<Vec<u8>, AllocError> {
    let (to, others, from) = patch;
    let mut all = Vec::from_slice(alloc, &bytes[..to.min(bytes.len())])?;
    all.extend_from_slice(others)?;
    all.extend_from_slice(&bytes[from.min(bytes.len())..])?;
    Ok(all)
}
