//! What the data of a picture of a run is written from.

use crate::drawn::Drawn;
use crate::resting::Resting;
use ir_fit::Fitted;
use ir_picture::{Around, Picture};

/// A picture of a run, with the last steps of its boxes and how its stale writes rest on their reads.
#[derive(Clone, Copy)]
pub struct View<'a> {
    /// The guest with its trace.
    pub fitted: &'a Fitted,
    /// The event that a part is around, if it is one.
    pub near: &'a Option<Around>,
    /// The picture.
    pub picture: &'a Picture,
    /// Its boxes with their last steps.
    pub drawn: &'a [Drawn],
    /// Its stale writes with how they rest on their reads.
    pub kept: &'a [Resting],
}
