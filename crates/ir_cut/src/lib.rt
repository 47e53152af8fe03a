//! Consistent cuts of a run: a position for each thread such that what each step needs is there.
#![tactic(auto)]

mod consistency;
mod cut;
mod falling;
mod laws;
mod logs;
mod moving;
mod needs;
mod rising;

pub use consistency::consistent;
pub use cut::Cut;
pub use falling::greatest;
pub use laws::{
    followers_admitted, greatest_exact, greatest_exists, lattice, least_exact, least_exists,
    persistence, progresses,
};
pub use rising::least;
