//! What a round comes to.

ghost use Rattle.std.specs.Prelude.{◌≡◌, false};
ghost use Rattle.ir_record.specs.RoundResults.{Noted};

// What a thread did at its turn.
#[derive(Clone, Copy)]
pub enum Outcome {
    // One of the private steps that it was ahead.
    Spent,
    // Its next step.
    Stepped,
    // No step: it is done, or it waits.
    Waited,
}

// What the turns of a round so far came to.
#[derive(Clone, Copy)]
pub struct RoundResult {
    // Whether a thread had a step.
    pub moved: bool,
    // Whether a thread had none.
    pub waited: bool,
    // How many rounds of private steps alone may follow.
    pub free: u64,
}

impl RoundResult {
    // Before the first turn.
    pub fn new() -> RoundResult
        ensures moved { result.moved ≡ false }
        ensures waited { result.waited ≡ false }
    {
        RoundResult {
            moved: false,
            waited: false,
            free: u64::MAX,
        }
    }

    // One more turn, after which its thread is `lead` private steps ahead. A step may end what an earlier thread waits for,
    // and that thread is asked again in the next round.
    pub fn note(&mut self, outcome: Outcome, lead: u64)
        ensures { Noted outcome lead self.old self.new }
    {
        match outcome {
            Outcome::Spent => {
                self.moved = true;
                self.free = self.free.min(lead);
            }
            Outcome::Stepped => {
                self.moved = true;
                self.free = if self.waited { 0 } else { self.free.min(lead) };
            }
            Outcome::Waited => self.waited = true,
        }
    }
}
