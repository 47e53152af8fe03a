//! Tests of runs by choosers and of conditions. They are a crate of their own, since a crate with tests is proved twice.
#![tactic(auto)]

#[cfg(test)]
mod condition_tests;
#[cfg(test)]
mod guests;
#[cfg(test)]
mod seeds_tests;
#[cfg(test)]
mod silent;
