//! Orders that are printed and recorded again: the list of an order, and that the run by an order is one.
#![tactic(auto)]

mod laws;
mod list;

pub use laws::{
    complete_runs_have_steps, one_recording_by_a_list, one_run_by_an_order, one_run_by_turns,
    plain_turns_are_orders, recordings_are_of_the_run,
};
pub use list::{list_of, list_of_items};
