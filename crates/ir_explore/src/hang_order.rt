//! The order of a run that hangs.

ghost use Rattle.std.specs.Prelude.{◌≤◌};
ghost use Rattle.ir_thread.specs.State.{most_budget};

/// The order in which a run that hangs is recorded.
#[derive(Drop)]
pub struct HangOrder {
    /// The list that leads to the hang.
    pub list: String,
    /// The most steps of each thread: as many as all threads take by the list, and one.
    pub budget: u64,
    ghost within: { budget ≤ most_budget },
}
