//! Ways to choose.

ghost use Rattle.ir_schedule.specs.Ways.{way_of};
ghost use Rattle.std.specs.Prelude.{◌≡◌};

/// How a seed chooses which thread continues.
#[derive(Clone, Copy, Debug, PartialEq, Eq)]
pub enum Way {
    /// Each thread that has a step goes with the same chance.
    Walk,
    /// The thread of the highest priority goes. The priorities are random, and the thread that would go falls at one place fewer than this.
    Priorities(u32),
    /// An even seed walks, an odd one goes by priorities.
    Mix,
}

impl Way {
    /// How this seed chooses.
    pub fn of_seed(self, seed: u64) -> Way
        ensures { result ≡ way_of self seed }
    {
        match self {
            Way::Walk | Way::Priorities(_) => self,
            Way::Mix if seed % 2 == 0 => Way::Walk,
            Way::Mix => Way::Priorities(2 + (seed / 2 % 3) as u32),
        }
    }
}
