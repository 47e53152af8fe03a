//! What two recordings have in common, and where each thread parts.
#![tactic(auto)]

mod common;
mod counted;
mod lines;
mod needs;
mod run;
mod texts;

pub use common::common_part;
pub use run::Difference;
