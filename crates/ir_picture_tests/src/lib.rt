//! Tests of the pictures of traces, over writers in memory.
#![tactic(auto)]

#[cfg(test)]
mod page;
#[cfg(test)]
mod traces;
#[cfg(test)]
mod view_tests;
