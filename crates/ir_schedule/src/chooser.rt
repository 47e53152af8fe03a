//! What chooses the thread that continues.

ghost use Rattle.ir_schedule.specs.Choices.{chosen, chosen_in_rounds, chosen_at_random, CanChoose, before_rounds, chooser_of};
ghost use Rattle.std.specs.Prelude.{◌≡◌, ◌<◌, ◌≤◌, length, All, IfOk, OnOk};
ghost use Rattle.std.specs.List.{Contains};

use crate::draw::{draw, generator_of};
use crate::ranking::Ranking;
use crate::way::Way;
use rand_pcg::Pcg32;
use std::alloc::{AllocError, Global};

/// Chooses the thread that continues.
#[derive(Drop)]
pub enum Chooser {
    // In rounds: after the thread of this number.
    Rounds(u8),
    // Each with the same chance.
    Walk(Pcg32),
    // The one of the highest priority.
    Highest(Ranking),
}

// The lowest thread above this one, or else the lowest.
fn next_in_rounds(last: u8, ready: &[u8]) -> u8
    requires { 0 < length ready.now }
    ensures value { result ≡ chosen_in_rounds last ready.now }
    ensures member { Contains ready.now result }
{
    'ready: for thread in ready {
        if last < *thread {
            return *thread;
        }
    }
    ready[0]
}

// One of the threads.
fn one_of(random: &mut Pcg32, ready: &[u8]) -> u8
    requires some { 0 < length ready.now }
    requires few { length ready.now < 256 }
    ensures value { (result, random.new) ≡ chosen_at_random random.old ready.now }
    ensures member { Contains ready.now result }
{
    let number = draw(random, ready.len() as u32);
    ready[number as usize]
}

impl Chooser {
    /// What chooses in rounds.
    pub fn rounds() -> Chooser
        ensures { result ≡ before_rounds }
    {
        Chooser::Rounds(u8::MAX)
    }

    /// The chooser of a seed, for a guest of `threads` threads, in whose run in rounds each thread has as many choices.
    ///
    /// # Errors
    /// Out of memory.
    pub fn of_seed(
        alloc: Global,
        way: Way,
        seed: u64,
        threads: usize,
        choices: &[u32],
    ) -> Result<Chooser, AllocError>
        requires { length choices.now < 256 }
        ensures value { IfOk result (λ c. c ≡ chooser_of way seed threads choices.now) }
        ensures serves { IfOk result (λ c. CanChoose threads c) }
    {
        let mut random = generator_of(seed);
        match way.of_seed(seed) {
            Way::Priorities(depth) => Ok(Chooser::Highest(Ranking::new(
                alloc,
                &mut random,
                threads,
                choices,
                depth.saturating_sub(1),
            )?)),
            _ => Ok(Chooser::Walk(random)),
        }
    }

    /// Which of these threads of a guest that has `threads` threads continues.
    pub fn choose(&mut self, threads: usize, ready: &[u8]) -> u8
        requires some { 0 < length ready.now }
        requires few { length ready.now < 256 }
        requires serves { CanChoose threads self.old }
        requires within { All (λ t. t < threads) ready.now }
        ensures value { (result, self.new) ≡ chosen self.old ready.now }
        ensures serves { CanChoose threads self.new }
        ensures member { Contains ready.now result }
    {
        match self {
            Chooser::Rounds(last) => {
                let thread = next_in_rounds(*last, ready);
                *last = thread;
                thread
            }
            Chooser::Walk(random) => one_of(random, ready),
            Chooser::Highest(ranking) => ranking.choose(ready),
        }
    }
}
