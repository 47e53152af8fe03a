//! Steps of which a gate hasn't been told yet.

ghost use Rattle.std.specs.Prelude.{◌≡◌, ◌<◌, ◌^◌};

use crate::gate::Gate;

/// After so many steps of a thread its gate is told of them at the latest.
pub const MOST_UNTOLD: u64 = 1 << 22;

/// How many steps of a thread there are of which its gate hasn't been told.
#[derive(Clone, Copy, Debug)]
pub struct Untold {
    steps: u64,
}

impl Untold {
    /// None.
    pub fn new() -> Untold
        ensures { result.steps ≡ 0 }
    {
        Untold { steps: 0 }
    }

    /// So many more. The gate is told of all once they are `MOST_UNTOLD`.
    #[inline]
    pub fn add<G: Gate>(&mut self, gate: &G, thread: u8, steps: u64)
        ensures { self.new.steps < 2 ^ 22 }
    {
        self.steps = self.steps.saturating_add(steps);
        if self.steps >= MOST_UNTOLD {
            self.tell(gate, thread);
        }
    }

    /// Tells the gate of all.
    pub fn tell<G: Gate>(&mut self, gate: &G, thread: u8)
        ensures { self.new.steps ≡ 0 }
    {
        gate.stepped(thread, self.steps);
        self.steps = 0;
    }
}
