//! Listings: the code of a guest as text, with symbols.
#![tactic(auto)]

mod lines;
mod list_err;
mod listing;
#[cfg(test)]
mod tests;

pub use list_err::ListErr;
pub use listing::list_run;
