//! Fields of bytes: numbers of a few widths, the lowest byte first, each read whole and then tested.
#![tactic(auto)]

mod field;

pub use field::{
    byte, byte_within, bytes, double, double_within, fixed_half, fixed_word, half, word,
    word_within,
};
