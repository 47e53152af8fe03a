//! In which versions of an object a word of it changed, and by which steps of a recorded run.
#![tactic(auto)]

mod answer;
mod guide;
mod hold;
mod holds;
mod lines;
mod noting;
mod object_word;
mod question;
mod run;
mod start;
mod stops;
mod track;
mod tracks;
mod visit;
mod walk;
mod worded;

pub use object_word::ObjectWord;
pub use question::Question;
pub use walk::words;
pub use worded::Worded;
