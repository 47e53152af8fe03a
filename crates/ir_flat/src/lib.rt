//! The flat interpreter: all threads and objects of a guest, one step at a time.
#![tactic(auto)]

mod flat;
mod laws;
mod parts;
mod start;

pub use flat::{Flat, NotAdmitted};
pub use laws::{
    alone_is_lone, counts_fit, each_alone, held_inside, nothing_stuck, splices, writers_alone,
};
