//! States of a guest that are kept in little memory: threads beside what answers them and words of objects that are equal once, each thread
//! without the private memory that is as at the start.
#![tactic(auto)]

mod bounds;
mod compare;
mod hash;
mod hints;
mod index;
mod kept;
mod node;
mod number;
mod objects;
mod packed;
mod place;
mod put;
mod row;
mod rows;
mod sourced;
mod spot;
mod store;
mod table;
mod words;

pub use bounds::bounded;
pub use hash::hash_of_numbers;
pub use hints::Hints;
pub use node::Node;
pub use sourced::{SourcedFlat, SourcedThread};
pub use spot::Spot;
pub use store::Store;
