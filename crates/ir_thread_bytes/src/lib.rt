//! A thread as bytes, which are equal exactly where threads look the same, and back.
#![tactic(auto)]

mod basis;
mod freezing;
mod laws;
mod pages;
mod thawing;

pub use basis::Basis;
pub use freezing::{changes_of, freeze, over};
pub use laws::{changes_come_back, comes_back, tells_apart};
pub use thawing::{changes_at, thaw};
