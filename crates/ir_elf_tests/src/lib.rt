//! Tests of guests from ELF files. They are a crate of their own, since a crate with tests is proved twice.
#![tactic(auto)]

#[cfg(test)]
mod files;
#[cfg(test)]
mod made_tests;
#[cfg(test)]
mod programs;
#[cfg(test)]
mod refusal_tests;
