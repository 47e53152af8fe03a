//! A run by a chooser.

ghost use Rattle.std.specs.Prelude.{◌≡◌, ◌≢◌, ◌<◌, ◌≤◌, ℕ, Bool, length, OnOk, IfErr, IfOk};
ghost use Rattle.arrayvec.specs.ArrayVec.{array_vec_len};
ghost use Rattle.ir_schedule.specs.Choices.{CanChoose};
ghost use Rattle.ir_schedule.specs.Moments.{moment_of, Ran, RanToEnd, TookStep, TookSome, IsAtRest, AllThreadsRest, OthersRest, IsStartOfGuest, IsReady, TellsStop};
ghost use Rattle.ir_schedule.specs.Schedules.{is_rest, AreReady, IsChosen};
ghost use Rattle.ir_schedule.specs.declared.chooser.Chooser.{Chooser};
ghost use Rattle.ir_flat.specs.Flat.{tables, machine, thread_of, IsFlat};
ghost use Rattle.ir_record.specs.Worlds.{AreSameWorlds};
ghost use Rattle.ir_runs.specs.Run.{Can};
ghost use Rattle.ir_thread.specs.State.{ask_of, shared_ask};

use crate::chooser::Chooser;
use crate::note::note;
use crate::runner::Runner;
use crate::step::{answer_to, enter_or_pass, go, is_rest};
use crate::stop::Stop;
use arrayvec::ArrayVec;
use ir_image::MOST_THREADS;
use ir_record::World;
use ir_thread::Ask;

// The most threads that may have a step.
const MOST_READY: usize = MOST_THREADS as usize;

// The threads that have a step.
type Ready = ArrayVec<u8, MOST_READY>;

/// How often each thread was chosen in a run; 0 for those that a guest doesn't have.
pub type Choices = [u32; MOST_READY];

impl<W: World> Runner<'_, W> {
    // Thread t takes the step that it asks, and it is noted.
    fn step(&mut self, t: usize, asked: Ask) -> Result<(), Stop>
        requires ready { IsReady W.broken self.old }
        requires thread { t < length self.old.flat.threads }
        requires flat { IsFlat self.old.flat }
        requires asked { asked ≡ ask_of self.old.flat.code (thread_of self.old.flat t) }
        requires can { Can (machine self.old.flat) (tables self.old.flat) (t, 0) }
        ensures took { OnOk result (TookStep t (moment_of W.answers self.old) (moment_of W.answers self.new)) }
        ensures ready { OnOk result (IsReady W.broken self.new) }
        ensures others { OnOk result ((tries : Bool) → OthersRest tries t self.old.flat self.new.flat) }
        ensures fewer { OnOk result (TookSome 1 self.old.flat self.new.flat) }
        ensures kept { AreSameWorlds W.origin self.old.worlds.items self.new.worlds.items }
        ensures told { IfErr result (TellsStop W.broken self.new) }
    {
        match asked {
            Ask::Env(kind) => {
                let value = answer_to(&mut self.worlds, t, kind)?;
                go(&mut self.flat, t, asked, value);
            }
            Ask::Try(_) => {
                enter_or_pass(&mut self.flat, t, asked);
            }
            _ => go(&mut self.flat, t, asked, 0),
        }
        note(&mut self.turns, t as u8, 1)?;
        Ok(())
    }

    // Thread t takes instructions, and what it asks then.
    #[inline(always)]
    fn run_to_ask(&mut self, t: usize) -> Result<Ask, Stop>
        requires ready { IsReady W.broken self.old }
        requires thread { t < length self.old.flat.threads }
        ensures ran { OnOk result ((tries : Bool) → ((u : ℕ) → u < t → IsAtRest tries self.old.flat u) → (c : Chooser) → Ran tries (moment_of W.answers self.old) c (moment_of W.answers self.new) c) }
        ensures asked { IfOk result (λ asked. asked ≡ ask_of self.new.flat.code (thread_of self.new.flat t)) }
        ensures ready { OnOk result (IsReady W.broken self.new) }
        ensures flat { IsFlat self.new.flat }
        ensures others { OnOk result ((tries : Bool) → OthersRest tries t self.old.flat self.new.flat) }
        ensures fewer { OnOk result (TookSome 0 self.old.flat self.new.flat) }
        ensures kept { AreSameWorlds W.origin self.old.worlds.items self.new.worlds.items }
        ensures told { IfErr result (TellsStop W.broken self.new) }
    {
        let (count, asked) = self.flat.run_to_ask(t, u64::MAX);
        if count > 0 {
            note(&mut self.turns, t as u8, count)?;
        }
        Ok(asked)
    }

    // Thread t continues to its next rest, while each lower thread rests.
    fn go_on(&mut self, tries: bool, t: usize) -> Result<(), Stop>
        requires ready { IsReady W.broken self.old }
        requires thread { t < length self.old.flat.threads }
        requires lower { (u : ℕ) → u < t → IsAtRest tries self.old.flat u }
        ensures ran { OnOk result ((c : Chooser) → Ran tries (moment_of W.answers self.old) c (moment_of W.answers self.new) c) }
        ensures rests { OnOk result (IsAtRest tries self.new.flat t) }
        ensures ready { OnOk result (IsReady W.broken self.new) }
        ensures others { OnOk result (OthersRest tries t self.old.flat self.new.flat) }
        ensures fewer { OnOk result (TookSome 0 self.old.flat self.new.flat) }
        ensures kept { AreSameWorlds W.origin self.old.worlds.items self.new.worlds.items }
        ensures told { IfErr result (TellsStop W.broken self.new) }
    {
        'steps: loop {
            let asked = self.run_to_ask(t)?;
            if is_rest(tries, asked) {
                return Ok(());
            }
            self.step(t, asked)?;
        }
    }

    // Each thread continues to its first rest.
    fn go_to_rests(&mut self, tries: bool) -> Result<(), Stop>
        requires ready { IsReady W.broken self.old }
        ensures ran { OnOk result ((c : Chooser) → Ran tries (moment_of W.answers self.old) c (moment_of W.answers self.new) c) }
        ensures rest { OnOk result (AllThreadsRest tries self.new.flat) }
        ensures ready { OnOk result (IsReady W.broken self.new) }
        ensures kept { AreSameWorlds W.origin self.old.worlds.items self.new.worlds.items }
        ensures told { IfErr result (TellsStop W.broken self.new) }
    {
        'threads: for t in 0..self.flat.threads().len() {
            self.go_on(tries, t)?;
        }
        Ok(())
    }

    // The threads that have a step.
    fn ready(&self) -> Ready
        ensures are { AreReady (machine self.now.flat) (tables self.now.flat) (length self.now.flat.threads) result.items }
        ensures flat { IsFlat self.now.flat }
    {
        let mut ready = Ready::new();
        'threads: for t in 0..self.flat.threads().len() {
            if self.flat.can_step(t) {
                ready.push(t as u8);
            }
        }
        ready
    }

    // Thread t, which is chosen, takes a step and continues to its next rest.
    fn turn(&mut self, tries: bool, t: usize) -> Result<(), Stop>
        requires ready { IsReady W.broken self.old }
        requires thread { t < length self.old.flat.threads }
        requires rest { AllThreadsRest tries self.old.flat }
        requires can { Can (machine self.old.flat) (tables self.old.flat) (t, 0) }
        ensures ran { OnOk result
            ((c d : Chooser) → IsChosen tries (machine self.old.flat) (length self.old.flat.threads) (tables self.old.flat) c t d
            → Ran tries (moment_of W.answers self.old) c (moment_of W.answers self.new) d) }
        ensures rest { OnOk result (AllThreadsRest tries self.new.flat) }
        ensures ready { OnOk result (IsReady W.broken self.new) }
        ensures fewer { OnOk result (TookSome 1 self.old.flat self.new.flat) }
        ensures kept { AreSameWorlds W.origin self.old.worlds.items self.new.worlds.items }
        ensures told { IfErr result (TellsStop W.broken self.new) }
    {
        let asked = self.flat.ask(t);
        self.step(t, asked)?;
        self.go_on(tries, t)?;
        Ok(())
    }

    /// The whole run by the chooser, from the guest's start. Its steps are added to the turns. Where
    /// there are tries, a thread also rests before it leaves an object. How often each thread was chosen is not proved.
    ///
    /// # Errors
    /// `Stop::World` if a thread's world fails; `Stop::TooLong` if the turns don't fit. The guest is then on the way.
    pub fn run(&mut self, tries: bool, chooser: &mut Chooser) -> Result<Choices, Stop>
        requires start { IsStartOfGuest self.old.flat }
        requires ready { IsReady W.broken self.old }
        requires serves { CanChoose (length self.old.flat.threads) chooser.old }
        ensures ran { OnOk result (RanToEnd tries (moment_of W.answers self.old) chooser.old (moment_of W.answers self.new)) }
        ensures ready { OnOk result (IsReady W.broken self.new) }
        ensures kept { AreSameWorlds W.origin self.old.worlds.items self.new.worlds.items }
        ensures told { IfErr result (TellsStop W.broken self.new) }
    {
        self.go_to_rests(tries)?;
        let mut choices = [0; MOST_READY];
        'choices: loop {
            let ready = self.ready();
            if ready.is_empty() {
                return Ok(choices);
            }
            let thread = chooser.choose(self.flat.threads().len(), ready.as_slice());
            if let Some(count) = choices.get_mut(thread as usize) {
                *count = count.saturating_add(1);
            }
            self.turn(tries, thread as usize)?;
        }
    }
}
