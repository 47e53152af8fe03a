//! Tests of searches over the states of guests. They are a crate of their own, since a crate with tests is proved twice.
#![tactic(auto)]

#[cfg(test)]
mod bound_tests;
#[cfg(test)]
mod explore_tests;
#[cfg(test)]
mod guests;
#[cfg(test)]
mod hang_tests;
#[cfg(test)]
mod page;
#[cfg(test)]
mod states_tests;
#[cfg(test)]
mod try_tests;
#[cfg(test)]
mod world_tests;
