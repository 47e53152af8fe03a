//! Turns of many threads.

ghost use Rattle.std.specs.Prelude.{◌≡◌, ◌<◌, ◌≤◌, ◌-◌, ℕ, [], ◌∷◌, length, replicate, IfOk, OnOk, IfErr};
ghost use Rattle.std.specs.List.{range_with_len};
ghost use Rattle.ir_thread.specs.State as thread;
ghost use Rattle.ir_flat.specs.Flat.{tables, machine};
ghost use Rattle.ir_runs.specs.Run.{State, rounds, HasNone};
ghost use Rattle.ir_record.specs.Ahead.{lead_of_thread, IsThreadAhead, CanSkip, AreAsks, HasPlaces, WentIf};
ghost use Rattle.ir_record.specs.RoundResults.{has_moved, IsRoundTurn};
ghost use Rattle.ir_record.specs.Progress.{TookSteps};
ghost use Rattle.ir_record.specs.Recorders.{progress_of, CanContinue, StopsIn, StaysReady};

use crate::in_order::recorder::Recorder;
use crate::in_order::round_result::{Outcome, RoundResult};
use crate::in_order::turn::Failed;
use crate::world::World;
use ir_thread::Ask;

// Every thread is `by` fewer steps ahead, or no longer ahead if it wasn't ahead by more.
fn lower(ahead: &mut Vec<u64>, by: u64)
    ensures size { length ahead.new.items ≡ length ahead.old.items }
    ensures each { (t : ℕ) → t < length ahead.old.items → lead_of_thread ahead.new.items t ≡ lead_of_thread ahead.old.items t - by }
{
    if by == 0 {
        return;
    }
    for t in 0..ahead.len() {
        ahead[t] = ahead[t].saturating_sub(by);
    }
}

impl<W: World> Recorder<'_, W> {
    // What each thread asks.
    fn ask_all(&self, asks: &mut Vec<Ask>)
        requires { length asks.old.items ≡ length self.now.guest.flat.threads }
        ensures { AreAsks asks.new.items self.now.guest.flat }
    {
        for number in 0..self.guest.flat.threads().len() {
            asks[number] = self.guest.ask(number);
        }
    }

    // A turn of thread t: one of the private steps that it is ahead; or its next step, if it has one, and then as many
    // private steps as there are.
    #[inline(always)]
    fn turn_ahead(
        &mut self,
        t: usize,
        ahead: &mut Vec<u64>,
        asks: &mut Vec<Ask>,
    ) -> Result<Outcome, Failed>
        requires ready { CanContinue W.answers W.broken self.old }
        requires places { HasPlaces ahead.old.items asks.old.items self.old.guest.flat }
        requires thread { t < length self.old.guest.flat.threads }
        ensures went { IfOk result
            (λ outcome. (s : State thread.ThreadState)
            → IsThreadAhead (machine self.old.guest.flat) ahead.old.items s (tables self.old.guest.flat)
            → WentIf (has_moved outcome) (t ∷ []) s (progress_of W.answers self.old) ahead.old.items (progress_of W.answers self.new)
            ahead.new.items) }
        ensures turn { IfOk result (λ outcome. IsRoundTurn outcome t ahead.old.items ahead.new.items self.old.guest.flat self.new.guest.flat) }
        ensures places { OnOk result (HasPlaces ahead.new.items asks.new.items self.new.guest.flat) }
        ensures stopped { IfErr result
            (λ f. (s : State thread.ThreadState)
            → IsThreadAhead (machine self.old.guest.flat) ahead.old.items s (tables self.old.guest.flat)
            → StopsIn W.answers (t ∷ []) s self.old self.new.worlds.items f) }
        ensures stays { StaysReady W.answers W.broken W.origin self.old self.new result }
    {
        let lead = ahead[t];
        if lead > 0 {
            ahead[t] = lead - 1;
            return Ok(Outcome::Spent);
        }
        if !self.turn_asked(t, asks[t])? {
            return Ok(Outcome::Waited);
        }
        let (ran, asked) = self.guest.run(t, u64::MAX);
        ahead[t] = ran;
        asks[t] = asked;
        Ok(Outcome::Stepped)
    }

    // A turn of each thread, from 0 upwards, and what it comes to.
    fn round(&mut self, ahead: &mut Vec<u64>, asks: &mut Vec<Ask>) -> Result<RoundResult, Failed>
        requires ready { CanContinue W.answers W.broken self.old }
        requires places { HasPlaces ahead.old.items asks.old.items self.old.guest.flat }
        ensures went { IfOk result
            (λ round. (s : State thread.ThreadState)
            → IsThreadAhead (machine self.old.guest.flat) ahead.old.items s (tables self.old.guest.flat)
            → WentIf round.moved (range_with_len 0 (length self.old.guest.flat.threads)) s (progress_of W.answers self.old)
            ahead.old.items (progress_of W.answers self.new) ahead.new.items) }
        ensures free { IfOk result (λ round. CanSkip (machine self.new.guest.flat) (length self.new.guest.flat.threads) round.free ahead.new.items (tables self.new.guest.flat)) }
        ensures places { OnOk result (HasPlaces ahead.new.items asks.new.items self.new.guest.flat) }
        ensures stopped { IfErr result
            (λ f. (s : State thread.ThreadState)
            → IsThreadAhead (machine self.old.guest.flat) ahead.old.items s (tables self.old.guest.flat)
            → StopsIn W.answers (range_with_len 0 (length self.old.guest.flat.threads)) s self.old self.new.worlds.items f) }
        ensures stays { StaysReady W.answers W.broken W.origin self.old self.new result }
    {
        let mut round = RoundResult::new();
        for t in 0..self.guest.flat.threads().len() {
            let outcome = self.turn_ahead(t, ahead, asks)?;
            round.note(outcome, ahead[t]);
        }
        Ok(round)
    }

    // Rounds until no thread has a step. `ahead` has a place for each thread, of which none is ahead, and so has `asks`. If there is one
    // thread alone, a round is its turn.
    pub fn rounds(&mut self, ahead: &mut Vec<u64>, asks: &mut Vec<Ask>) -> Result<(), Failed>
        requires ready { CanContinue W.answers W.broken self.old }
        requires level { ahead.old.items ≡ replicate (length self.old.guest.flat.threads) 0 }
        requires asks { length asks.old.items ≡ length self.old.guest.flat.threads }
        ensures took { OnOk result ((count : ℕ) × TookSteps (rounds (length self.old.guest.flat.threads) count) (progress_of W.answers self.old) (progress_of W.answers self.new)) }
        ensures over { OnOk result ((t : ℕ) → t < length self.new.guest.flat.threads → HasNone (machine self.new.guest.flat) (tables self.new.guest.flat) t) }
        ensures stopped { IfErr result (λ f. (count : ℕ) × StopsIn W.answers (rounds (length self.old.guest.flat.threads) count) (tables self.old.guest.flat) self.old self.new.worlds.items f) }
        ensures stays { StaysReady W.answers W.broken W.origin self.old self.new result }
    {
        if self.guest.flat.threads().len() == 1 {
            return self.turns_alone();
        }
        self.ask_all(asks);
        'rounds: loop {
            let round = self.round(ahead, asks)?;
            if !round.moved {
                return Ok(());
            }
            lower(ahead, round.free);
        }
    }
}
