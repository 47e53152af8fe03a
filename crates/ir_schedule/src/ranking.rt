//! A choice by priorities.

ghost use Rattle.ir_schedule.specs.Ranking.{Ranking, leader, fallen, chosen_highest, first_priorities, after_words, place_from, choices_from, choices_in, first_places, first_ranking};
ghost use Rattle.std.specs.Prelude.{◌≡◌, ◌<◌, length, All, IfOk, OnOk, replicate};
ghost use Rattle.std.specs.List.{Contains};

use crate::draw::draw;
use crate::place::Place;
use rand_core::utils::NextWord;
use rand_pcg::Pcg32;
use std::alloc::{AllocError, Global};
use std::marker::Model;

// The priorities of threads that have not fallen begin here.
const FIRST_PRIORITY: u64 = 1 << 34;

// The priority of a thread that falls at the first place.
const FALLEN_PRIORITY: u64 = 1 << 33;

// The fewest times in a row after which a thread polls.
const FEWEST_IN_A_ROW: u64 = 16;

// The priorities of a guest's threads, which fall.
#[derive(Drop)]
pub struct Ranking {
    // The priority of each thread.
    pub priorities: Vec<u64>,
    // Where threads fall.
    pub places: Vec<Place>,
    // How often each thread was chosen.
    pub taken: Vec<u64>,
    // The thread that was chosen last.
    pub last: u8,
    // How many times in a row it may still be chosen before it falls as soon as another could go.
    pub patience: u64,
    // How many times a thread may.
    pub limit: u64,
    // What the next thread that polls falls to.
    pub lowest: u64,
}

impl Model for Ranking {
    ghost use Rattle.ir_schedule.specs.Ranking.{Ranking};

    ghost Value = { Ranking };

    ghost view = { λ r. record { priorities = r.priorities.items; places = r.places.items; taken = r.taken.items; last = r.last; patience = r.patience; limit = r.limit; lowest = r.lowest } };
}

// Who goes of these threads: the first of the highest priority.
fn leader(priorities: &[u64], ready: &[u8]) -> u8
    requires some { 0 < length ready.now }
    requires within { All (λ t. t < length priorities.now) ready.now }
    ensures value { result ≡ leader priorities.now ready.now }
    ensures below { result < length priorities.now }
    ensures member { Contains ready.now result }
{
    let mut best = ready[0];
    'ready: for thread in ready {
        if priorities[best as usize] < priorities[*thread as usize] {
            best = *thread;
        }
    }
    best
}

// The priorities of `threads` threads, each of a word.
fn priorities(alloc: Global, random: &mut Pcg32, threads: usize) -> Result<Vec<u64>, AllocError>
    ensures value { IfOk result (λ v. v.items ≡ first_priorities threads random.old) }
    ensures generator { OnOk result (random.new ≡ after_words threads random.old) }
{
    let mut priorities = Vec::with_capacity(alloc, threads)?;
    'threads: for _ in 0..threads {
        let word = random.next_word();
        priorities.push(FIRST_PRIORITY + word as u64)?;
    }
    Ok(priorities)
}

// How many choices there are, at least 1, where each thread has as many of them.
fn choices_in(choices: &[u32]) -> u32
    ensures value { result ≡ choices_in choices.now }
    ensures some { 0 < result }
{
    let mut total = 0u32;
    'threads: for count in choices {
        total = total.saturating_add(*count);
    }
    total.max(1)
}

// The place at this one of all choices, where those of thread 0 come first.
fn place_at(choices: &[u32], number: u32) -> Place
    requires few { length choices.now < 256 }
    ensures { result ≡ place_from 0 choices.now number }
{
    let mut choice = number;
    'threads: for thread in 0..choices.len() {
        if choice < choices[thread] {
            return Place::new(thread as u8, choice);
        }
        choice -= choices[thread];
    }
    Place::new(choices.len() as u8, choice)
}

// `count` places, each at one of the choices.
fn places(
    alloc: Global,
    random: &mut Pcg32,
    choices: &[u32],
    count: u32,
) -> Result<Vec<Place>, AllocError>
    requires few { length choices.now < 256 }
    ensures { IfOk result (λ v. v.items ≡ first_places choices.now count random.old) }
{
    let total = choices_in(choices);
    let mut places = Vec::new(alloc);
    'places: for _ in 0..count {
        let number = draw(random, total);
        places.push(place_at(choices, number))?;
    }
    Ok(places)
}

// So many zeros.
fn zeros(alloc: Global, count: usize) -> Result<Vec<u64>, AllocError>
    ensures { IfOk result (λ v. v.items ≡ replicate count 0) }
{
    let mut zeros = Vec::with_capacity(alloc, count)?;
    zeros.resize(count, 0)?;
    Ok(zeros)
}

impl Ranking {
    // The ranking of `threads` threads, in one of whose runs each has as many choices, with `count` places.
    pub fn new(
        alloc: Global,
        random: &mut Pcg32,
        threads: usize,
        choices: &[u32],
        count: u32,
    ) -> Result<Ranking, AllocError>
        requires few { length choices.now < 256 }
        ensures value { IfOk result (λ r. r ≡ first_ranking threads choices.now count random.old) }
        ensures threads { IfOk result (λ r. length r.priorities ≡ threads) }
        ensures counted { IfOk result (λ r. length r.taken ≡ threads) }
    {
        let priorities = priorities(alloc, random, threads)?;
        let places = places(alloc, random, choices, count)?;
        let limit = (choices_in(choices) as u64).max(FEWEST_IN_A_ROW);
        Ok(Ranking {
            priorities,
            places,
            taken: zeros(alloc, threads)?,
            last: 0,
            patience: limit,
            limit,
            lowest: FALLEN_PRIORITY - 1,
        })
    }

    // Whoever would go falls at each place that it has reached.
    fn fall(&mut self, ready: &[u8])
        requires some { 0 < length ready.now }
        requires within { All (λ t. t < length self.old.priorities) ready.now }
        requires counted { length self.old.taken ≡ length self.old.priorities }
        ensures value { self.new ≡ record self.old { priorities = fallen ready.now self.old.taken 0 self.old.places self.old.priorities } }
        ensures threads { length self.new.priorities ≡ length self.old.priorities }
    {
        'places: for number in 0..self.places.len() {
            let thread = leader(self.priorities.as_slice(), ready);
            let taken = self.taken[thread as usize];
            if self.places[number].is_reached(thread, taken) {
                let before = self.priorities[thread as usize];
                self.priorities[thread as usize] = before.min(FALLEN_PRIORITY + number as u64);
            }
        }
    }

    // Who goes of these threads.
    pub fn choose(&mut self, ready: &[u8]) -> u8
        requires some { 0 < length ready.now }
        requires within { All (λ t. t < length self.old.priorities) ready.now }
        requires counted { length self.old.taken ≡ length self.old.priorities }
        ensures value { (result, self.new) ≡ chosen_highest self.old ready.now }
        ensures member { Contains ready.now result }
        ensures threads { length self.new.priorities ≡ length self.old.priorities }
        ensures counted { length self.new.taken ≡ length self.old.taken }
    {
        self.fall(ready);
        let thread = leader(self.priorities.as_slice(), ready);
        let before = if thread == self.last {
            self.patience
        } else {
            self.limit
        };
        let taken = self.taken[thread as usize];
        self.taken[thread as usize] = taken.saturating_add(1);
        self.last = thread;
        self.patience = before.saturating_sub(1);
        if self.patience == 0 && ready.len() > 1 {
            self.priorities[thread as usize] = self.lowest;
            self.lowest = self.lowest.saturating_sub(1);
            self.patience = self.limit;
        }
        thread
    }
}
