//! What `ir explore` does: the outcomes of a guest are found, and printed in lines, and one that fulfils conditions is recorded.
#![tactic(auto)]

mod answer;
mod bytes;
mod conditions;
mod fault;
mod hang;
mod hang_order;
mod known;
mod laws;
mod levels;
mod lines;
mod outcome;
mod plan;
mod run;
mod seek;
mod started;
mod states;
mod texts;
mod until;

pub use answer::{ending_text, stopped_text};
pub use conditions::outcomes_decide;
pub use fault::ExploreFault;
pub use hang::explore_hang;
pub use hang_order::HangOrder;
pub use known::explore_by_plan;
pub use laws::{
    hangs_never_complete, recordings_are_listed, recordings_are_untimed, recordings_have_outcomes,
    recordings_never_fulfil, untimed_recordings_are_listed,
};
pub use outcome::outcome_text;
pub use plan::{ExplorePlan, HangPlan, UntilPlan};
pub use run::explore_run;
pub use started::Started;
pub use states::state_of;
pub use texts::{Ending, end_line};
pub use until::{explore_until, guest_of};
