//! Many steps of a thread in one call.

ghost use Rattle.std.specs.Prelude.{◌≡◌, ◌≢◌, ◌+◌, ◌<◌, ◌≤◌, None};
ghost use Rattle.ir_mach.specs.Execution.{outcome_of};
ghost use Rattle.ir_mach.specs.Steps.{ran_of};
ghost use Rattle.ir_thread.specs.State.{ask_of, after_reply};
ghost use Rattle.ir_thread.specs.Private.{PrivateSteps, NoInstruction, UnmarkedSteps, StopsUnmarked};
ghost use Rattle.ir_thread.specs.declared.ask.Ask.TheVariants as ask;
ghost use Rattle.ir_thread.specs.declared.ask.Reply.TheVariants.{Go};
ghost use Rattle.ir_mach.specs.declared.outcome.Ran.TheVariants as ran;

use crate::ask::Ask;
use crate::thread::Thread;
use ir_image::Code;
use ir_mach::{MarkedCode, Ran};

impl Thread {
    // Takes instructions, at most `limit`, of a thread that hasn't ended and has as many steps left: how many they were, and
    // what its machine's next step comes to.
    #[inline(always)]
    fn run_within(&mut self, code: &Code, limit: u64) -> (u64, Ran)
        requires lives { self.old.ended ≡ None }
        requires budget { self.old.steps + limit ≤ self.old.budget }
        ensures within { result.0 ≤ limit }
        ensures steps { PrivateSteps code.now result.0 self.old self.new }
        ensures next { result.1 ≡ ran_of (outcome_of code.now self.new.core) }
        ensures stops { result.0 < limit → result.1 ≢ ran.Ran }
        ensures others { self.new ≡ record self.old { core = self.new.core; steps = self.old.steps + result.0 } }
    {
        let (taken, ran) = self.mach.run_on(code, limit);
        self.steps += taken;
        (taken, ran)
    }

    // Takes instructions, at most `limit`, of a thread that hasn't ended: how many they were, and what the thread asks then. It
    // stops below the limit only where the next step is no instruction.
    #[inline(always)]
    fn run_instructions(&mut self, code: &Code, limit: u64) -> (u64, Ask)
        requires { self.old.ended ≡ None }
        ensures within { result.0 ≤ limit }
        ensures steps { PrivateSteps code.now result.0 self.old self.new }
        ensures asked { result.1 ≡ ask_of code.now self.new }
        ensures stops { result.0 < limit → NoInstruction code.now self.new }
    {
        let room = limit.min(self.budget - self.steps);
        let (taken, ran) = self.run_within(code, room);
        (taken, self.asked_by(code, ran))
    }

    // Past the call that answers the thread's number, where the thread asks for a private step that is no instruction.
    #[inline(always)]
    fn pass_own_number(&mut self, code: &Code)
        requires asked { ask_of code.now self.old ≡ ask.Private }
        requires call { NoInstruction code.now self.old }
        ensures { self.new ≡ after_reply code.now self.old Go }
    {
        self.pass(Some(self.number as u32));
    }

    /// Takes private steps, at most `limit`: how many they were, and what the thread asks then. It stops below the limit only
    /// where the next step is neither an instruction nor private.
    #[tactic(auto, using(crate::proofs::PrivateRuns::zero_private_steps))]
    #[inline(always)]
    pub fn run_to_ask(&mut self, code: &Code, limit: u64) -> (u64, Ask)
        ensures within { result.0 ≤ limit }
        // The thread is as after `result.0` of its own steps, each of them private.
        ensures steps { PrivateSteps code.now result.0 self.old self.new }
        ensures asked { result.1 ≡ ask_of code.now self.new }
        // Why it stopped.
        ensures stops { result.0 < limit → NoInstruction code.now self.new }
        ensures shared { result.0 < limit → result.1 ≢ ask.Private }
    {
        if self.ended.is_some() {
            return (0, self.releasing());
        }
        let mut taken = 0;
        while taken < limit {
            let (more, asked) = self.run_instructions(code, limit - taken);
            taken += more;
            match asked {
                Ask::Private => {
                    if taken == limit {
                        return (limit, asked);
                    }
                    self.pass_own_number(code);
                    taken += 1;
                }
                _ => return (taken, asked),
            }
        }
        (taken, self.ask(code))
    }

    /// Takes instructions none of which is marked, at most `limit`, and says how many they were. It stops below the limit only
    /// where the next step is marked or no instruction.
    pub fn run_unmarked(&mut self, code: &MarkedCode<'_>, limit: u64) -> u64
        ensures within { result ≤ limit }
        ensures steps { UnmarkedSteps code.now result self.old self.new }
        // Why it stopped.
        ensures stops { result < limit → StopsUnmarked code.now self.new }
    {
        if self.ended.is_some() {
            return 0;
        }
        let taken = self
            .mach
            .run_unmarked(code, limit.min(self.budget - self.steps));
        self.steps += taken;
        taken
    }

    /// Takes private steps, at most `limit`: how many they were, and what the thread asks then, which below the limit is no
    /// private step.
    pub fn run(&mut self, code: &Code, limit: u64) -> (u64, Ask)
        ensures within { result.0 ≤ limit }
        // The thread is as after `result.0` of its own steps, each of them private.
        ensures steps { PrivateSteps code.now result.0 self.old self.new }
        ensures asked { result.1 ≡ ask_of code.now self.new }
        // Why it stopped.
        ensures stops { result.0 < limit → result.1 ≢ ask.Private }
    {
        self.run_to_ask(code, limit)
    }
}
