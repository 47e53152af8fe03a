//! The lowest seed, sought on all processors.

ghost use Rattle.std.specs.Prelude.{◌≡◌, ◌≤◌, ◌<◌, All, IfOk, MatchOption, Option, Some, true, length, List, ℕ};
ghost use Rattle.std.specs.String.{string_bytes};
ghost use Rattle.ir_hunt.specs.Hunt.{Hunt, hunt_of};
ghost use Rattle.ir_hunt.specs.Parts.{HasTried, IsBegun, IsPartOf, IsPartWithin};
ghost use Rattle.ir_hunt.specs.Tried.{AreAllTried, IsLowestSeed, IsTriedLast};
ghost use Rattle.ir_schedule.specs.declared.seeds.Seeds.{Seeds};
ghost use Rattle.ir_thread.specs.State.{IsAllowed};

use crate::dealing::Dealer;
use crate::part::Part;
use crate::plan::HuntPlan;
use crate::shown::Shown;
use crate::stretches::Stretches;
use crate::tries::Tries;
use crate::worker::{Worker, has_failed, part_from, seek_all};
use ir_image::Image;
use ir_schedule::Seeds;
use std::alloc::{AllocError, Global};
use std::thread::{self, Threads};
use std::time::Clock;

// The most threads that seek.
const MOST_WORKERS: usize = 64;

/// A seed that is found, and the list that spells the order of its run.
#[derive(Drop)]
pub struct Found {
    /// The seed.
    pub seed: u64,
    /// The list.
    pub list: String,
}

/// What a search came to.
#[derive(Drop)]
pub struct Search {
    /// The lowest seed that fulfils.
    pub found: Option<Found>,
    /// How many of the seeds that were tried were left out; if one is found, of those below it.
    pub left_out: u128,
    /// The seed that was tried last.
    pub last: u64,
}

// So many workers.
fn workers<'a, R: Threads + Clock>(
    rt: &'a R,
    alloc: Global,
    image: &'a Image,
    plan: &'a HuntPlan<'a>,
    count: usize,
    own: &Tries<'a, R>,
) -> Result<Vec<Worker<'a, R>>, AllocError>
    requires allowed { IsAllowed plan.now.record.profile image.now }
    requires same { own.now ≡ hunt_of image.now plan.now own.now.choices }
    ensures { IfOk result (λ ws. All (λ w. w.tries ≡ own.now) ws.items) }
{
    let mut workers = Vec::with_capacity(alloc, count)?;
    'workers: for _ in 0..count {
        let tries = own.again(alloc, rt, image, plan)?;
        workers.push(Worker::new(tries, Vec::new(alloc)))?;
    }
    Ok(workers)
}

// How many processors there are.
fn processors(rt: &impl Threads) -> usize
    ensures { 0 < result }
{
    match thread::available_parallelism(rt) {
        Ok(count) => count.get().min(MOST_WORKERS),
        Err(_) => 1,
    }
}

// How many workers there are for these seeds: as many as processors, and no more than seeds or than are wanted.
fn worker_count(rt: &impl Threads, seeds: Seeds, jobs: usize) -> usize
    ensures { 0 < result }
{
    let more = seeds
        .last
        .saturating_sub(seeds.first)
        .min(MOST_WORKERS as u64);
    processors(rt).min(more as usize + 1).min(jobs.max(1))
}

// What was tried of these seeds from the first on, by a worker. What no worker has tried is tried here.
fn part_of<C: Clock>(
    alloc: Global,
    workers: &[Worker<'_, C>],
    own: &mut Tries<'_, C>,
    seeds: Seeds,
) -> Result<Part, AllocError>
    requires some { seeds.first ≤ seeds.last }
    requires tried { All (λ w. HasTried own.old w.tries w.parts.items) workers.now }
    ensures same { own.new ≡ own.old }
    ensures part { IfOk result (λ part. IsBegun own.old seeds part) }
{
    match part_from(workers, seeds.first, seeds.last) {
        Some(part) => part.copy(alloc),
        None => own.try_all(seeds),
    }
}

// What was tried of all these seeds, part by part, up to the first that is found.
fn gathered<C: Clock>(
    alloc: Global,
    workers: &[Worker<'_, C>],
    own: &mut Tries<'_, C>,
    seeds: Seeds,
) -> Result<Part, AllocError>
    requires some { seeds.first ≤ seeds.last }
    requires tried { All (λ w. HasTried own.old w.tries w.parts.items) workers.now }
    ensures same { own.new ≡ own.old }
    ensures part { IfOk result (λ part. IsPartOf own.old seeds part) }
{
    let mut part = part_of(alloc, workers, own, seeds)?;
    'parts: while part.ends_before(seeds.last) {
        let left = Seeds {
            first: part.seeds.last + 1,
            last: seeds.last,
        };
        let next = part_of(alloc, workers, own, left)?;
        part = part.then(next);
    }
    Ok(part)
}

// How long stretches are, what is shown of them, and how many seconds all of them may take.
#[derive(Clone, Copy, Debug)]
struct Pace {
    stretches: Stretches,
    shown: Shown,
    seconds: Option<u32>,
}

impl Pace {
    // Whether the time is over, if it is bounded.
    fn is_over<R: Clock>(&self, rt: &R) -> bool
        ensures { result ≡ true → (s : ℕ) × (self.now.seconds ≡ Some s) }
    {
        match self.seconds {
            Some(seconds) => self.shown.has_lasted(rt, seconds),
            None => false,
        }
    }
}

// The workers try the next stretch of these seeds: what was tried of it, up to the first seed that is found.
fn try_stretch<R: Threads + Clock + Sync + Eprint>(
    rt: &R,
    alloc: Global,
    workers: &mut [Worker<'_, R>],
    own: &mut Tries<'_, R>,
    seeds: Seeds,
    pace: &mut Pace,
) -> Result<Part, AllocError>
    requires some { seeds.first ≤ seeds.last }
    requires tries { All (λ w. w.tries ≡ own.old) workers.old }
    ensures tries { All (λ w. w.tries ≡ own.old) workers.new }
    ensures same { own.new ≡ own.old }
    ensures part { IfOk result (λ part. IsBegun own.old seeds part) }
    ensures seconds { pace.new.seconds ≡ pace.old.seconds }
{
    let stretch = pace.stretches.next(seeds);
    let dealer = Dealer::new(stretch, workers.len() as u64);
    seek_all(rt, workers, &dealer);
    if has_failed(workers) {
        return Err(AllocError);
    }
    let part = gathered(alloc, workers, own, stretch)?;
    if part.list.is_none() {
        pace.stretches.took(pace.shown.tried(rt, stretch));
    }
    Ok(part)
}

// What was tried of all these seeds, stretch by stretch, up to the first that is found, or until the time is over.
fn try_stretches<R: Threads + Clock + Sync + Eprint>(
    rt: &R,
    alloc: Global,
    workers: &mut [Worker<'_, R>],
    own: &mut Tries<'_, R>,
    seeds: Seeds,
    pace: &mut Pace,
) -> Result<Part, AllocError>
    requires some { seeds.first ≤ seeds.last }
    requires tries { All (λ w. w.tries ≡ own.old) workers.old }
    ensures { IfOk result (λ part. IsPartWithin own.old seeds pace.old.seconds part) }
{
    let mut part = try_stretch(rt, alloc, workers, own, seeds, pace)?;
    'stretches: while part.ends_before(seeds.last) {
        if pace.is_over(rt) {
            return Ok(part);
        }
        let left = Seeds {
            first: part.seeds.last + 1,
            last: seeds.last,
        };
        let next = try_stretch(rt, alloc, workers, own, left, pace)?;
        part = part.then(next);
    }
    Ok(part)
}

// The same. What is shown of them is taken off the terminal then.
fn try_all<R: Threads + Clock + Sync + Eprint>(
    rt: &R,
    alloc: Global,
    workers: &mut [Worker<'_, R>],
    own: &mut Tries<'_, R>,
    plan: &HuntPlan<'_>,
) -> Result<Part, AllocError>
    requires some { plan.now.seeds.first ≤ plan.now.seeds.last }
    requires tries { All (λ w. w.tries ≡ own.old) workers.old }
    ensures { IfOk result (λ part. IsPartWithin own.old plan.now.seeds plan.now.seconds part) }
{
    let mut pace = Pace {
        stretches: Stretches::new(workers.len() as u64),
        shown: Shown::new(rt, plan.is_shown),
        seconds: plan.seconds,
    };
    let part = try_stretches(rt, alloc, workers, own, plan.seeds, &mut pace);
    pace.shown.end(rt);
    part
}

// What was found of seeds that were tried up to the first that is found, or until the time is over.
fn found_in(part: Part) -> Search
    ensures { (hunt : Hunt) (seeds : Seeds) (seconds : Option ℕ) → IsPartWithin hunt seeds seconds part
        → MatchOption result.found (IsTriedLast seeds seconds result.last × AreAllTried hunt seeds.first result.last result.left_out)
        (λ f. IsLowestSeed hunt seeds.first seeds.last f.seed result.left_out (string_bytes f.list)) }
{
    let Part {
        seeds,
        left_out,
        list,
    } = part;
    match list {
        Some(list) => Search {
            found: Some(Found {
                seed: seeds.last,
                list,
            }),
            left_out,
            last: seeds.last,
        },
        None => Search {
            found: None,
            left_out,
            last: seeds.last,
        },
    }
}

/// The lowest seed that fulfils, sought by as many threads as there are processors, and no more than the plan wants. Where the plan bounds the
/// time, it may end before the last seed.
///
/// # Errors
/// Out of memory.
pub fn lowest_seed<R: Threads + Clock + Sync + Eprint>(
    rt: &R,
    alloc: Global,
    image: &Image,
    plan: &HuntPlan<'_>,
) -> Result<Search, AllocError>
    requires { IsAllowed plan.now.record.profile image.now }
    ensures { IfOk result (λ s. (choices : List ℕ)
        × MatchOption s.found (IsTriedLast plan.now.seeds plan.now.seconds s.last × AreAllTried (hunt_of image.now plan.now choices) plan.now.seeds.first s.last s.left_out)
        (λ f. IsLowestSeed (hunt_of image.now plan.now choices) plan.now.seeds.first plan.now.seeds.last f.seed s.left_out (string_bytes f.list))) }
{
    let seeds = plan.seeds;
    if seeds.first > seeds.last {
        return Ok(Search {
            found: None,
            left_out: 0,
            last: seeds.last,
        });
    }
    let mut own = Tries::new(alloc, rt, image, plan)?;
    let count = worker_count(rt, seeds, plan.jobs);
    let mut each = workers(rt, alloc, image, plan, count, &own)?;
    let workers = each.as_mut_slice();
    let part = try_all(rt, alloc, workers, &mut own, plan)?;
    Ok(found_in(part))
}
