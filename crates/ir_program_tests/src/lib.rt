//! Tests of the program, over files in memory.
#![tactic(auto)]

#[cfg(test)]
mod arguments_tests;
#[cfg(test)]
mod asm_tests;
#[cfg(test)]
mod device_tests;
#[cfg(test)]
mod given_words_tests;
#[cfg(test)]
mod kept_outputs;
#[cfg(test)]
mod large_tests;
#[cfg(test)]
mod naming_tests;
#[cfg(test)]
mod places_tests;
#[cfg(test)]
mod program_tests;
#[cfg(test)]
mod record_tests;
#[cfg(test)]
mod rests_tests;
#[cfg(test)]
mod shelf;
#[cfg(test)]
mod trace_tests;
#[cfg(test)]
mod view_tests;
#[cfg(test)]
mod why_tests;
#[cfg(test)]
mod word_tests;
#[cfg(test)]
mod world_tests;
