//! What `ir record` does: a guest is recorded in an order or by threads, and its trace, outputs and lines are written.
#![tactic(auto)]

mod files;
mod numeral;
mod order;
mod parsed_image;
mod plan;
mod record_fault;
mod recording;

pub use files::{RecordFiles, Recording};
pub use numeral::number_within;
pub use order::{MOST_TURNS, OrderErr, bad_item, read_order};
pub use parsed_image::ParsedImage;
pub use plan::RecordPlan;
pub use record_fault::RecordFault;
pub use recording::{record_by_list, record_run, thread_line};
