//! Orders of a guest's threads that a seed gives, and conditions of what a run comes to.
#![tactic(auto)]

mod chooser;
mod condition;
mod draw;
mod laws;
mod note;
mod outcome;
mod place;
mod ranking;
mod run;
mod runner;
mod seeds;
mod spelling;
mod step;
mod stop;
mod text;
mod way;

pub use chooser::Chooser;
pub use condition::{Condition, Fact, Literal};
pub use laws::{schedules_are_of_threads, schedules_are_orders};
pub use run::Choices;
pub use runner::Runner;
pub use seeds::Seeds;
pub use spelling::condition_of;
pub use stop::Stop;
pub use way::Way;
