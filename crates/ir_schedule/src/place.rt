//! A place at which a thread falls.

ghost use Rattle.std.specs.Prelude.{◌≡◌};
ghost use Rattle.ir_schedule.specs.Ranking.{is_reached};

// The choice of a thread at which it falls.
#[derive(Clone, Copy, Debug, PartialEq, Eq)]
pub struct Place {
    pub thread: u8,
    // How many of its choices come before.
    pub choice: u32,
}

impl Place {
    // The place at this choice of the thread.
    pub fn new(thread: u8, choice: u32) -> Place
        ensures thread { result.thread ≡ thread }
        ensures choice { result.choice ≡ choice }
    {
        Place { thread, choice }
    }

    // Whether the thread would go there, which has taken as many choices.
    pub fn is_reached(self, thread: u8, taken: u64) -> bool
        ensures { result ≡ is_reached self thread taken }
    {
        self.thread == thread && self.choice as u64 == taken
    }
}
