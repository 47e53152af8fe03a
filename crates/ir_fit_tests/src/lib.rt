//! Tests of threads, objects, logs and traces, of the flat interpreter and of the fitting of traces. They are a crate
//! of their own, since a crate with tests is proved twice.
#![tactic(auto)]

#[cfg(test)]
mod coherence_tests;
#[cfg(test)]
mod event_bytes;
#[cfg(test)]
mod fit_tests;
#[cfg(test)]
mod flat_tests;
#[cfg(test)]
mod guests;
#[cfg(test)]
mod large_tests;
#[cfg(test)]
mod log_tests;
#[cfg(test)]
mod object_tests;
#[cfg(test)]
mod plain_fit;
#[cfg(test)]
mod plain_tests;
#[cfg(test)]
mod thread_tests;
#[cfg(test)]
mod trace_tests;
#[cfg(test)]
mod try_tests;
#[cfg(test)]
mod visits_tests;
