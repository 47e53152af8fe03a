//! Tests of instructions, images, the assembler and the machine, and of the debugger's words and lines. They are a crate of
//! their own, since a crate with tests is proved twice.
#![tactic(auto)]

#[cfg(test)]
mod arithmetic_tests;
#[cfg(test)]
mod asm_row_tests;
#[cfg(test)]
mod asm_source_tests;
#[cfg(test)]
mod bytes_tests;
#[cfg(test)]
mod command_tests;
#[cfg(test)]
mod disasm_tests;
#[cfg(test)]
mod image_tests;
#[cfg(test)]
mod isa_tests;
#[cfg(test)]
mod mach_tests;
#[cfg(test)]
mod machines;
#[cfg(test)]
mod marked_tests;
#[cfg(test)]
mod registers;
#[cfg(test)]
mod stream_tests;
