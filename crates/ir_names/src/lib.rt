//! Names of threads, objects, words and addresses, and answers that have them.
#![tactic(auto)]

mod legal;
mod names_err;
mod naming;
mod numbers;
mod place;
mod reached;
mod reading;
mod sink;
mod table;
#[cfg(test)]
mod tests;
mod thing;
mod words;

pub use names_err::NamesErr;
pub use place::Place;
pub use reached::Reached;
pub use reading::read_names;
pub use sink::NamedSink;
pub use table::Names;
pub use thing::Thing;
pub use words::{NamesSplit, split_words};
