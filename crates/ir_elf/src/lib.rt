//! Guests from ELF files.
#![tactic(auto)]

mod elf_err;
mod header;
mod laws;
mod memory;
mod part;
mod reading;
mod refusal;
mod segment;
mod segments;
mod table;

pub use elf_err::ElfErr;
pub use laws::{
    code_is_segments, elf_round_trip, memory_is_segments, refused_exactly, table_is_segment,
};
pub use reading::{own_bytes, read_elf};
pub use refusal::Refusal;
