//! Numbers without sign as commands and the assembler take them: decimal digits, or `0x` and hexadecimal digits.
#![tactic(auto)]

mod number;

pub use number::number_in;
