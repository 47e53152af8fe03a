//! Tests of the pcs of events. They are a crate of their own, since a crate with tests is proved twice.
#![tactic(auto)]

#[cfg(test)]
mod pc_tests;
