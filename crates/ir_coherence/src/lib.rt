//! Whether the entries of a recorded trace can occur together, whatever the guest: by counting them.
#![tactic(auto)]

mod cause;
mod coherence;
mod counting;
mod entry_counts;
mod far_versions;
mod incoherence;
mod laws;
mod version_counts;

pub use cause::Cause;
pub use coherence::first_incoherence;
pub use counting::count_entries;
pub use entry_counts::EntryCounts;
pub use incoherence::Incoherence;
pub use laws::{coherent_unbroken, one_cause, unbroken_coherent};
