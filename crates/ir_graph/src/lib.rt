//! The graph of a guest: its states at rest, and where each thread leads from them.
#![tactic(auto)]

mod ahead;
mod bounds;
mod graph;
mod hands;
mod known;
mod likeness;
mod lone;
mod marks;
mod nodes;
mod notes;
mod outcomes;
mod rest;
mod setup;
mod start;
mod states;
mod turns;
mod way;

pub use ahead::Ahead;
pub use bounds::Bounds;
pub use graph::Graph;
pub use likeness::same_state;
pub use outcomes::has_new_outcome;
pub use rest::run_to_rest;
pub use setup::Setup;
pub use states::States;
pub use way::way_result;
