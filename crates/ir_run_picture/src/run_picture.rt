//! A picture of a run.

use crate::resting::Resting;
use ir_picture::Picture;

/// A picture of a run, with how its stale writes rest on what was read.
#[derive(Drop)]
pub struct RunPicture {
    /// The picture, of which the stale writes are those that rest on what was read.
    pub picture: Picture,
    /// The same stale writes, with how each rests.
    pub kept: Vec<Resting>,
}
