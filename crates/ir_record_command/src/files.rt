//! What is recorded, and where it goes.

use crate::parsed_image::ParsedImage;
use crate::plan::RecordPlan;

/// A guest that is recorded, and how.
#[derive(Clone, Copy)]
pub struct Recording<'i, 'p, 'g, 'd> {
    /// The guest's image.
    pub image: &'i ParsedImage<'g>,
    /// How it is recorded.
    pub plan: &'p RecordPlan<'d>,
}

/// Where a recording goes.
#[derive(Drop)]
pub struct RecordFiles<W, P> {
    /// Where its trace goes.
    pub trace: W,
    /// Where what each thread printed goes.
    pub outputs: P,
}
