//! The starts and ends of boxes in the order of their threads' steps.

use crate::span::Span;
use std::alloc::{AllocError, Global};

/// A box starts or ends.
#[derive(Clone, Copy, Debug, PartialEq, Eq)]
pub struct Moment {
    /// Its number.
    pub number: usize,
    /// The thread.
    pub thread: u8,
    /// How many steps the thread took before.
    pub step: u64,
    /// Whether it ends.
    pub ends: bool,
}

/// The starts and ends of boxes, by rising thread and step. Time is linear in the boxes, times the logarithm of their number.
///
/// # Errors
/// Out of memory.
pub fn moments_of(alloc: Global, spans: &[Span]) -> Result<Vec<Moment>, AllocError> {
    let mut moments = Vec::new(alloc);
    for (number, own) in spans.iter().enumerate() {
        let Span {
            thread,
            first,
            last,
        } = *own;
        moments.push(Moment {
            number,
            thread,
            step: first,
            ends: false,
        })?;
        moments.push(Moment {
            number,
            thread,
            step: last,
            ends: true,
        })?;
    }
    moments.sort_by_key(|moment| moment.step)?;
    moments.sort_by_key(|moment| moment.thread)?;
    Ok(moments)
}
