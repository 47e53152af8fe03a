//! The names of addresses that an ELF file has: the symbols of its code and data.
#![tactic(auto)]

mod fields;
mod section;
mod symbols;
#[cfg(test)]
mod tests;

pub use symbols::elf_symbols;
