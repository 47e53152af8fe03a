//! What one processor tries of a stretch.

ghost use Rattle.std.specs.Prelude.{◌≡◌, ◌≤◌, ◌<◌, ℕ, All, IfSome, length};
ghost use Rattle.std.specs.List.{slice_index_or};
ghost use Rattle.ir_hunt.specs.Hunt.{Hunt};
ghost use Rattle.ir_hunt.specs.Parts.{IsTried, HasTried};

use crate::dealing::Dealer;
use crate::part::Part;
use crate::tries::Tries;
use crossbeam_utils::CachePadded;
use ir_schedule::Seeds;
use std::alloc::AllocError;
use std::thread::{self, Threads};
use std::time::Clock;

/// What one processor tries of a stretch.
#[derive(Drop)]
pub struct Worker<'a, C> {
    /// What tries its seeds.
    pub tries: Tries<'a, C>,
    /// What it has tried of the stretch, a hand each.
    pub parts: Vec<Part>,
    /// Whether memory ran out.
    pub failed: bool,
    // Aligned, so that no two workers write to one line of the processor's memory.
    apart: CachePadded<()>,
}

impl<'a, C: Clock> Worker<'a, C> {
    /// Before the first stretch.
    pub fn new(tries: Tries<'a, C>, parts: Vec<Part>) -> Worker<'a, C>
        ensures { result.tries ≡ tries.entry }
    {
        Worker {
            tries,
            parts,
            failed: false,
            apart: CachePadded::new(()),
        }
    }

    // Tries a hand: whether a seed of it is found.
    fn try_hand(&mut self, hand: Seeds) -> Result<bool, AllocError>
        requires { hand.first ≤ hand.last }
        ensures { (hunt : Hunt) → HasTried hunt self.old.tries self.old.parts.items → HasTried hunt self.new.tries self.new.parts.items }
    {
        let part = self.tries.try_all(hand)?;
        let is_found = part.list.is_some();
        self.parts.push(part)?;
        Ok(is_found)
    }

    // Tries each hand that it is dealt, until a seed is found. Then no further hand is dealt.
    fn try_hands(&mut self, dealer: &Dealer) -> Result<(), AllocError>
        ensures { HasTried self.old.tries self.new.tries self.new.parts.items }
    {
        self.parts.clear();
        'hands: for _ in 0..dealer.hands() {
            let Some(hand) = dealer.next() else {
                break;
            };
            if self.try_hand(hand)? {
                dealer.close();
                break;
            }
        }
        Ok(())
    }

    // The same. If memory runs out, no further hand is dealt either.
    fn seek(&mut self, dealer: &Dealer)
        ensures { HasTried self.old.tries self.new.tries self.new.parts.items }
    {
        self.failed = self.try_hands(dealer).is_err();
        if self.failed {
            dealer.close();
        }
    }

    // What it has tried from this seed on, if it has, and not beyond the last.
    fn part_from(&self, first: u64, last: u64) -> Option<&Part>
        ensures tried { (hunt : Hunt) → HasTried hunt self.now.tries self.now.parts.items → IfSome result (λ part. IsTried hunt part.now) }
        ensures first { IfSome result (λ part. part.now.seeds.first ≡ first) }
        ensures last { IfSome result (λ part. part.now.seeds.last ≤ last) }
    {
        for part in &self.parts {
            if part.seeds.first == first && part.seeds.last <= last {
                return Some(part);
            }
        }
        None
    }
}

// Each worker tries the hands that it is dealt, on a processor of its own if it can.
fn seek_each<R: Threads + Clock + Sync>(rt: &R, workers: &mut [Worker<'_, R>], dealer: &Dealer)
    ensures same { length workers.new ≡ length workers.old }
    ensures tried { (i : ℕ) (d : _) → i < length workers.old → HasTried (slice_index_or workers.old i d).tries (slice_index_or workers.new i d).tries (slice_index_or workers.new i d).parts.items }
{
    if workers.is_empty() {
        return;
    }
    let count = workers.len();
    thread::for_each_mut(
        rt,
        workers,
        count,
        &|_, worker: &mut Worker<'_, R>|
            ensures { HasTried worker.entry.now.tries worker.exit.now.tries worker.exit.now.parts.items }
        { worker.seek(dealer) },
    );
}

/// The workers of a hunt try the hands that they are dealt, each on a processor of its own if it can.
pub fn seek_all<R: Threads + Clock + Sync>(rt: &R, workers: &mut [Worker<'_, R>], dealer: &Dealer)
    ensures tried { (hunt : Hunt) → All (λ w. w.tries ≡ hunt) workers.old → All (λ w. HasTried hunt w.tries w.parts.items) workers.new }
    ensures tries { (hunt : Hunt) → All (λ w. w.tries ≡ hunt) workers.old → All (λ w. w.tries ≡ hunt) workers.new }
{
    seek_each(rt, workers, dealer);
}

/// What a worker has tried from this seed on, if one has, and not beyond the last.
pub fn part_from<'w, C: Clock>(
    workers: &'w [Worker<'_, C>],
    first: u64,
    last: u64,
) -> Option<&'w Part>
    ensures tried { (hunt : Hunt) → All (λ w. HasTried hunt w.tries w.parts.items) workers.now → IfSome result (λ part. IsTried hunt part.now) }
    ensures first { IfSome result (λ part. part.now.seeds.first ≡ first) }
    ensures last { IfSome result (λ part. part.now.seeds.last ≤ last) }
{
    for worker in workers {
        if let Some(part) = worker.part_from(first, last) {
            return Some(part);
        }
    }
    None
}

/// Whether memory ran out for a worker.
pub fn has_failed<C>(workers: &[Worker<'_, C>]) -> bool {
    workers.iter().any(|worker| worker.failed)
}
