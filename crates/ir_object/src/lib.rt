//! One shared object of a guest: who may enter, its version, and its words.
#![tactic(auto)]

mod fields;
mod gate;
mod hands;
mod laws;
mod layout;
mod object;
mod untold;
mod word;

pub use fields::Fields;
pub use gate::{Gate, OpenGate};
pub use hands::{Given, Hands};
pub use laws::{one_word_each, steps_of_words, words_stand};
pub use layout::{APART, CONTENT_PLACE, WORD_PLACE};
pub use object::Object;
pub use untold::{MOST_UNTOLD, Untold};
pub use word::Word;
