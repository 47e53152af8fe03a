//! Runs of any machine of threads: their cuts, their traces and what is said of a trace. What is proved is for callers
//! in `proofs/CallerLemmas.antt`.
#![tactic(auto)]

mod access;
mod env_kind;
mod thread_verdict;

pub use access::Access;
pub use env_kind::EnvKind;
pub use thread_verdict::ThreadVerdict;
