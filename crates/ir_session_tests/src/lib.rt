//! Tests of sessions: what a debugger of a recorded guest answers, over readers and writers in memory.
#![tactic(auto)]

#[cfg(test)]
mod debugger_tests;
#[cfg(test)]
mod device_tests;
#[cfg(test)]
mod hit_rows;
#[cfg(test)]
mod kept_rows;
#[cfg(test)]
mod large_rows;
#[cfg(test)]
mod limit_tests;
#[cfg(test)]
mod line_tests;
#[cfg(test)]
mod memory_tests;
#[cfg(test)]
mod moved_rows;
#[cfg(test)]
mod object_rows;
#[cfg(test)]
mod one_thread_rows;
#[cfg(test)]
mod refused_tests;
#[cfg(test)]
mod sessions;
#[cfg(test)]
mod streams;
#[cfg(test)]
mod tries_rows;
#[cfg(test)]
mod verdict_rows;
#[cfg(test)]
mod walk_tests;
#[cfg(test)]
mod written_tests;
