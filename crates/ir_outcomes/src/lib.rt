//! The different outcomes of a guest, each with turns of its threads that lead to it.
#![tactic(auto)]

mod explored;
mod exploring;
mod hang;
mod listing;
mod path;
mod rerun;
mod rerun_error;
mod shown;

pub use explored::{Explored, explore};
pub use exploring::Exploring;
pub use listing::Listing;
pub use shown::Shown;
