//! Where boxes are drawn that go from one step of their thread to another: their rows, their places, and the ends of their threads.
#![tactic(auto)]

mod checking;
mod heights;
mod held;
mod holding;
mod known;
mod levels;
mod marks;
mod moments;
mod nearing;
mod needing;
mod proposing;
mod settling;
mod span;
mod spot;
mod stops;

pub use held::HeldBoxes;
pub use holding::held_boxes;
pub use span::Span;
