//! The commands of the program that make, record and explain files, a file each: they read what their arguments name, say what is wrong, and give
//! the exit status. The commands that open a session are ir_program's.
#![tactic(auto)]

mod asking;
mod assemble;
mod conditions;
mod diff;
mod elf;
mod ends;
mod events;
mod explaining;
mod explore;
mod files;
mod hunt;
mod list;
mod listing;
mod maps;
mod outside;
mod record;
mod recording;
mod search_files;
mod shrink;
mod sought;
mod stale;
mod surroundings;
mod trace;
mod tracing;
mod until;
mod view;
mod who;
mod why;
mod within;

pub use assemble::assemble_file;
pub use diff::diff_files;
pub use elf::convert_file;
pub use events::events_file;
pub use explaining::explain_files;
pub use explore::explore_file;
pub use files::{bytes_of, explain_image, image_in, say};
pub use hunt::hunt_file;
pub use list::list_file;
pub use outside::outside_file;
pub use record::record_file;
pub use shrink::shrink_file;
pub use stale::stale_file;
pub use surroundings::Surroundings;
pub use trace::trace_file;
pub use tracing::trace_run;
pub use until::until_file;
pub use view::view_file;
pub use who::who_file;
pub use why::why_file;
pub use within::{classes_file, within_file};
