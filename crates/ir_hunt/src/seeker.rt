//! What runs a guest by one seed after another.

ghost use Rattle.std.specs.Prelude.{◌≡◌, ◌≢◌, ◌<◌, ◌⊎◌, [], length, map, replicate, true, false, IfOk, OnOk, MatchOption};
ghost use Rattle.std.specs.String.{string_bytes};
ghost use Rattle.std.specs.List.{list_all};
ghost use Rattle.ir_thread.specs.State.{IsAllowed};
ghost use Rattle.ir_record.specs.Recording.{order_of_turns};
ghost use Rattle.ir_record.specs.Worlds.{NoneFailed};
ghost use Rattle.ir_world.specs.Sources.{made_with, origins};
ghost use Rattle.ir_schedule.specs.Choices.{CanChoose, chooser_of};
ghost use Rattle.ir_schedule.specs.Conditions.{as_condition, fulfils, end_state};
ghost use Rattle.ir_schedule.specs.Moments.{moment_of};
ghost use Rattle.ir_hunt.specs.Finding.{has_tries, IsFound};
ghost use Rattle.ir_hunt.specs.Hunt.{hunt_of};
ghost use Rattle.ir_hunt.specs.Seeking.{fresh_guest, RanBy};
ghost use Rattle.ir_hunt.specs.Stale.{IsWanted};
ghost use Rattle.ir_hunt.specs.Tried.{Fails};

use crate::plan::HuntPlan;
use crate::stale::is_wanted;
use crate::worlds::counted_worlds;
use ir_flat::Flat;
use ir_image::{Image, MOST_THREADS};
use ir_order::list_of;
use ir_schedule::{Choices, Chooser, Runner, Stop};
use ir_thread::Profile;
use ir_world::ProgramWorld;
use std::alloc::{AllocError, Global};
use std::time::Clock;

/// The most turns of a run that a hunt follows.
const MOST_NOTED_TURNS: usize = 1 << 20;

/// Why the run of a seed wasn't followed to its end.
#[derive(Clone, Copy, Debug, PartialEq, Eq)]
pub enum Lost {
    /// Out of memory.
    NoMem,
    /// It has too many turns, or too many answers of the world outside.
    TooLong,
}

impl From<AllocError> for Lost {
    fn from(_e: AllocError) -> Lost {
        Lost::NoMem
    }
}

impl From<Stop> for Lost {
    fn from(_e: Stop) -> Lost {
        Lost::TooLong
    }
}

/// What runs a guest by one seed after another.
#[derive(Drop)]
pub struct Seeker<'a, C> {
    alloc: Global,
    clock: &'a C,
    image: &'a Image,
    plan: &'a HuntPlan<'a>,
    runner: Runner<'a, ProgramWorld<'a, C>>,
    ghost allowed: { IsAllowed plan.now.record.profile image.now },
    ghost origins: { map (λ w. made_with w.time w.seed w.file.now) runner.worlds.items ≡ origins true plan.now.record.random plan.now.record.input (length image.now.entries) },
}

// Whether there are tries.
fn has_tries(profile: Profile) -> bool
    ensures { result ≡ has_tries profile }
{
    match profile {
        Profile::One => false,
        Profile::Two => true,
    }
}

// Each world is as it was before its first answer.
fn restart_all<C>(worlds: &mut Vec<ProgramWorld<'_, C>>)
    ensures made { map (λ w. made_with w.time w.seed w.file.now) worlds.new.items ≡ map (λ w. made_with w.time w.seed w.file.now) worlds.old.items }
    ensures answers { map (λ w. w.answers.items) worlds.new.items ≡ replicate (length worlds.old.items) [] }
    ensures works { NoneFailed (map (λ w. w.failed) worlds.new.items) }
{
    for place in 0..worlds.len() {
        worlds[place].restart();
    }
}

impl<'a, C: Clock> Seeker<'a, C> {
    /// Before the first run, of a guest that the profile allows.
    ///
    /// # Errors
    /// Out of memory.
    pub fn new(
        alloc: Global,
        clock: &'a C,
        image: &'a Image,
        plan: &'a HuntPlan<'a>,
    ) -> Result<Seeker<'a, C>, AllocError>
        requires { IsAllowed plan.now.record.profile image.now }
        ensures image { IfOk result (λ s. s.image.now ≡ image.now) }
        ensures plan { IfOk result (λ s. s.plan.now ≡ plan.now) }
    {
        let record = &plan.record;
        let flat = Flat::start(alloc, image, record.budget, record.profile)?;
        let worlds = counted_worlds(alloc, clock, image, record)?;
        let turns = Vec::with_capacity(alloc, MOST_NOTED_TURNS)?;
        Ok(Seeker {
            alloc,
            clock,
            image,
            plan,
            runner: Runner {
                flat,
                worlds,
                turns,
            },
        })
    }

    // Before the first step.
    fn restart(&mut self) -> Result<(), AllocError>
        ensures image { self.new.image ≡ self.old.image }
        ensures plan { self.new.plan ≡ self.old.plan }
        ensures fresh { OnOk result (moment_of (λ w. w.answers.items) self.new.runner ≡ fresh_guest self.old.image.now self.old.plan.now.record) }
        ensures works { OnOk result (NoneFailed (map (λ w. w.failed) self.new.runner.worlds.items)) }
    {
        let record = &self.plan.record;
        self.runner
            .flat
            .restart(self.alloc, self.image, record.budget, record.profile)?;
        restart_all(&mut self.runner.worlds);
        self.runner.turns.clear();
        Ok(())
    }

    // The run by a chooser, and how often each thread was chosen.
    fn run(&mut self, chooser: &mut Chooser) -> Result<Choices, Lost>
        requires serves { CanChoose (length self.old.image.now.entries) chooser.old }
        ensures image { self.new.image ≡ self.old.image }
        ensures plan { self.new.plan ≡ self.old.plan }
        ensures ran { OnOk result (RanBy self.old.image.now self.old.plan.now.record chooser.old (moment_of (λ w. w.answers.items) self.new.runner)) }
    {
        self.restart()?;
        let record = &self.plan.record;
        let tries = has_tries(record.profile);
        Ok(self.runner.run(tries, chooser)?)
    }

    /// How often each thread is chosen in the run in rounds; the limit on turns for each place of a thread if it has too many.
    ///
    /// # Errors
    /// Out of memory.
    pub fn choices(&mut self) -> Result<Choices, AllocError>
        ensures image { self.new.image ≡ self.old.image }
        ensures plan { self.new.plan ≡ self.old.plan }
    {
        match self.run(&mut Chooser::rounds()) {
            Err(Lost::NoMem) => Err(AllocError),
            Err(Lost::TooLong) => Ok([MOST_NOTED_TURNS as u32; MOST_THREADS as usize]),
            Ok(choices) => Ok(choices),
        }
    }

    // Whether what the run came to fulfils each condition.
    fn holds(&self) -> bool
        ensures { result ≡ list_all (λ c. fulfils (as_condition c) (end_state self.now.runner.flat)) self.now.plan.now.conditions.now }
    {
        let flat = &self.runner.flat;
        self.plan
            .conditions
            .iter()
            .all(|condition| condition.holds(flat))
    }

    // Whether the last run has what is wanted of its stale writes.
    fn is_wanted(&self) -> Result<bool, AllocError>
        ensures { IfOk result (IsWanted self.now.image.now self.now.plan.now.record (order_of_turns self.now.runner.turns.items) self.now.plan.now.stale) }
    {
        let turns = self.runner.turns.as_slice();
        is_wanted(
            self.alloc,
            self.clock,
            self.image,
            &self.plan.record,
            turns,
            self.plan.stale,
        )
    }

    // Whether the run of a seed fulfils each condition, and has what is wanted of its stale writes. These are asked only where it
    // fulfils each condition.
    fn fulfils(&mut self, seed: u64, choices: &Choices) -> Result<bool, Lost>
        ensures image { self.new.image ≡ self.old.image }
        ensures plan { self.new.plan ≡ self.old.plan }
        ensures ran { OnOk result
            (RanBy self.old.image.now self.old.plan.now.record
            (chooser_of self.old.plan.now.way seed (length self.old.image.now.entries) choices.now)
            (moment_of (λ w. w.answers.items) self.new.runner)) }
        ensures some { OnOk result (order_of_turns self.new.runner.turns.items ≢ []) }
        ensures each { IfOk result (λ b. b ≡ true → list_all (λ c. fulfils (as_condition c) (end_state self.new.runner.flat)) self.old.plan.now.conditions.now ≡ true) }
        ensures wanted { IfOk result (λ b. b ≡ true → IsWanted self.old.image.now self.old.plan.now.record (order_of_turns self.new.runner.turns.items) self.old.plan.now.stale true) }
        ensures other { IfOk result (λ b. b ≡ false → (list_all (λ c. fulfils (as_condition c) (end_state self.new.runner.flat)) self.old.plan.now.conditions.now ≡ false)
            ⊎ IsWanted self.old.image.now self.old.plan.now.record (order_of_turns self.new.runner.turns.items) self.old.plan.now.stale false) }
    {
        let threads = self.image.entries().len();
        let mut chooser = Chooser::of_seed(self.alloc, self.plan.way, seed, threads, choices)?;
        self.run(&mut chooser)?;
        if self.holds() {
            Ok(self.is_wanted()?)
        } else {
            Ok(false)
        }
    }

    /// Tries a seed: the list that spells the order of its run, if that fulfils each condition and has what is wanted of its stale writes.
    ///
    /// # Errors
    /// It wasn't followed to its end.
    pub fn list_of_seed(&mut self, seed: u64, choices: &Choices) -> Result<Option<String>, Lost>
        ensures image { self.new.image ≡ self.old.image }
        ensures plan { self.new.plan ≡ self.old.plan }
        ensures tried { IfOk result (λ o. MatchOption o (Fails (hunt_of self.old.image.now self.old.plan.now choices.now) seed)
            (λ list. IsFound (hunt_of self.old.image.now self.old.plan.now choices.now) seed (string_bytes list))) }
    {
        let is_found = self.fulfils(seed, choices)?;
        if is_found {
            let list = list_of(self.alloc, self.runner.turns.as_slice())?;
            return Ok(Some(list));
        }
        Ok(None)
    }
}
