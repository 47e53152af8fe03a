//! Why an event of a recorded trace came when it did: what it needs, how much is before it, and the chain of waits that led to it.
#![tactic(auto)]

mod before;
mod chain;
mod fit_before;
mod fit_lines;
mod fit_question;
mod fit_run;
mod fit_texts;
mod laws;
mod leaves;
mod lines;
mod link;
mod need;
mod question;
mod run;
mod starts;
mod tables;
mod texts;
mod wait;
mod waits;

pub use before::past_of;
pub use chain::chain_of;
pub use fit_question::FitQuestion;
pub use laws::{needs_left_before, waits_before};
pub use link::Link;
pub use question::Question;
pub use tables::{Tables, tables_of};
