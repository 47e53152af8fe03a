//! Live registers: which registers a thread's code may still read, and that a thread can't tell what the others hold.
#![tactic(auto)]

mod flow;
mod laws;
mod marks;
mod sweep;
mod table;
#[cfg(test)]
mod tests;

pub use laws::agreement_lasts;
pub use table::Live;
