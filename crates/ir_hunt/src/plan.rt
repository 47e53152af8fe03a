//! What is hunted, and how.

use ir_record_command::RecordPlan;
use ir_schedule::{Condition, Seeds, Way};

/// What is hunted, and how.
#[derive(Drop)]
pub struct HuntPlan<'a> {
    /// How each run goes but for its order. It has no list.
    pub record: RecordPlan<'a>,
    /// How a seed chooses which thread goes on.
    pub way: Way,
    /// The seeds that are tried.
    pub seeds: Seeds,
    /// What has to hold of what a run came to, all of it.
    pub conditions: &'a [Condition<'a>],
    /// Whether a stale write of a run has to rest on what was read, by the image: one, or none; if it is `None`, nothing is asked of them.
    pub stale: Option<bool>,
    /// The most threads that hunt at once. There is one at least.
    pub jobs: usize,
    /// How many seconds it may take: no further seeds are begun after them. If it is `None`, as many as it takes.
    pub seconds: Option<u32>,
    /// Whether it is shown on standard error, once a second, how many seeds were tried.
    pub is_shown: bool,
}
