//! Tests of what a trace says of its past, over traces and writers in memory.
#![tactic(auto)]

#[cfg(test)]
mod diff_tests;
#[cfg(test)]
mod page;
#[cfg(test)]
mod stale_tests;
#[cfg(test)]
mod traces;
#[cfg(test)]
mod who_tests;
