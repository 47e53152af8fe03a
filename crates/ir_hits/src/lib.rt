//! Where the points that are set hit a thread of a recorded run: breakpoints, watched words of its memory
//! and of objects, and watched objects.
#![tactic(auto)]

mod before;
mod marking;
mod point;
mod search;
mod seeing;
mod stepping;

pub use point::{NumberedPoint, OBJECT_SIZE, OBJECTS_START};
pub use search::{first_hit, last_hit, may_hit};
