//! What is shrunk, and how.

use ir_record_command::RecordPlan;
use ir_schedule::Condition;

/// What is shrunk, and how.
#[derive(Drop)]
pub struct ShrinkPlan<'a> {
    /// How each run goes but for its order, as the given run did. It has no list.
    pub record: RecordPlan<'a>,
    /// What has to hold of what a run came to, all of it.
    pub conditions: &'a [Condition<'a>],
    /// The conditions as they are written.
    pub texts: &'a [String],
    /// Whether a stale write of a run has to rest on what was read, by the image: one, or none; if it is `None`, nothing is asked of them.
    pub stale: Option<bool>,
    /// How many seconds the search may take: no further run is begun after them. If it is `None`, as many as it takes.
    pub seconds: Option<u32>,
    /// Whether it is shown on standard error how many switches are left, each time that there are fewer.
    pub is_shown: bool,
}
