//! A search over numbered nodes, level by level: in a level each thread goes on alone as far as it can, by each of its two ways.
#![tactic(auto)]

mod alone;
mod found;
mod level;
mod observer;
mod origin;
mod search;
mod stop;
mod successors;
mod turn;
mod ways;

pub use alone::go_alone;
pub use found::{Found, Pending};
pub use level::take_level;
pub use observer::{Observer, Unobserved};
pub use origin::{Level, Origin, Refusal};
pub use search::{Ended, Search};
pub use stop::Stop;
pub use successors::Successors;
pub use turn::take_turn;
pub use ways::mark_ways;
