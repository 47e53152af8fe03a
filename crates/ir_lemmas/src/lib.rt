//! Lemmas on lists, truth values and results that several crates cite. It has no code.
#![tactic(auto)]
