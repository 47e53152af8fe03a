//! Recording: runs of a guest, and their traces.
#![tactic(auto)]

mod by_threads;
mod in_order;
mod item;
mod outputs;
mod record_err;
mod thread_trace;
mod turns;
mod world;

pub use by_threads::{Limits, record};
pub use in_order::{record_in_order, record_in_turns, record_with_refusals};
pub use item::Item;
pub use outputs::{Output, Outputs};
pub use record_err::RecordErr;
pub use turns::Turns;
pub use world::{World, WorldErr};
