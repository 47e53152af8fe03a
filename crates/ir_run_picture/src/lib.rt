//! A picture of a run: its events in boxes that go from entering to leaving, with their steps, and the stale writes that rest on what was read.
#![tactic(auto)]

mod brief;
mod chrome;
mod data;
mod drawing;
mod drawn;
mod folding;
mod keeping;
mod laws;
mod pictures;
mod resting;
mod rows;
mod run;
mod run_picture;
mod slices;
mod spans;
mod view;

pub use brief::is_brief;
pub use drawn::Drawn;
pub use folding::run_boxes_of;
pub use laws::{behind_is_in_cut, behind_is_left, rows_do_not_overlap};
pub use resting::Resting;
pub use run::RunView;
pub use run_picture::RunPicture;
pub use spans::spans_of;
