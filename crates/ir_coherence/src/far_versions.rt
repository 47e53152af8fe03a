//! Versions, one for each entry, and how often each occurs among them.

ghost use Rattle.std.specs.Prelude.{◌≡◌, [], ◌∷◌, ◌++◌, ◌-◌, ◌<◌, ℕ, OnOk};
ghost use Rattle.std.specs.List.Sorted.{IsNonDecreasing};
ghost use Rattle.ir_coherence.specs.Counting.{occurrences, IsBelow, IsFrom};

use std::alloc::{AllocError, Global};

// A start that is not known.
const NOWHERE: u32 = u32::MAX;

/// Versions of any size, which are sorted before they are counted. They are looked up by blocks of equal size, about
/// as many as there are versions: where a block starts is only a guess, which each search tests before it uses it.
#[derive(Drop)]
pub struct FarVersions {
    versions: Vec<u32>,
    starts: Vec<u32>,
    shift: u32,
}

// For `count` versions, by how many bits a version is shifted to give its block.
fn shift_of(count: usize) -> u32 {
    let mut shift = 32;
    for bits in 0..26u32 {
        if count >> bits != 0 {
            shift = 31 - bits;
        }
    }
    shift
}

// The block of a number, counted from 0.
fn block_of(number: u64, shift: u32) -> usize {
    (number >> (shift % 64)) as usize
}

// Where each block starts that has versions.
fn note_starts(starts: &mut [u32], versions: &[u32], shift: u32) {
    for place in 0..versions.len() {
        let block = block_of(versions[place] as u64, shift);
        if let Some(start) = starts.get_mut(block) {
            *start = (*start).min((place % NOWHERE as usize) as u32);
        }
    }
}

// A block that has none starts where the next one does.
fn fill_starts(starts: &mut [u32]) {
    let mut next = NOWHERE;
    for start in starts.iter_mut().rev() {
        next = next.min(*start);
        *start = next;
    }
}

impl FarVersions {
    /// None.
    pub fn new(alloc: Global) -> FarVersions
        ensures { result.versions.items ≡ [] }
    {
        FarVersions {
            versions: Vec::new(alloc),
            starts: Vec::new(alloc),
            shift: 32,
        }
    }

    /// One more.
    ///
    /// # Errors
    /// Out of memory.
    pub fn push(&mut self, version: u32) -> Result<(), AllocError>
        ensures { OnOk result (self.new.versions.items ≡ self.old.versions.items ++ version ∷ []) }
    {
        self.versions.push(version)?;
        Ok(())
    }

    /// Sorts them.
    ///
    /// # Errors
    /// Out of memory.
    pub fn sort(&mut self) -> Result<(), AllocError>
        ensures sorted { OnOk result (IsNonDecreasing self.new.versions.items) }
        ensures same { OnOk result ((v : ℕ) → occurrences v self.new.versions.items ≡ occurrences v self.old.versions.items) }
    {
        self.versions.sort_unstable();
        if !self.versions.is_empty() {
            self.shift = shift_of(self.versions.len());
            let blocks = block_of(u32::MAX as u64, self.shift).saturating_add(1);
            self.starts.resize(blocks, NOWHERE)?;
            note_starts(&mut self.starts, &self.versions, self.shift);
            fill_starts(&mut self.starts);
        }
        Ok(())
    }

    // At least this many versions are below the number: as many as guessed if one look shows that, or else as many as known.
    fn raised(&self, number: u64, known: usize, guess: usize) -> usize
        requires sorted { IsNonDecreasing self.now.versions.items }
        requires known { IsBelow self.now.versions.items number known }
        ensures { IsBelow self.now.versions.items number result }
    {
        if guess > known
            && guess <= self.versions.len()
            && (self.versions[guess - 1] as u64) < number
        {
            guess
        } else {
            known
        }
    }

    // From this place on no version is below the number: from the guessed one if one look shows that, or else from the known one.
    fn lowered(&self, number: u64, known: usize, guess: usize) -> usize
        requires sorted { IsNonDecreasing self.now.versions.items }
        requires known { IsFrom self.now.versions.items number known }
        ensures { IsFrom self.now.versions.items number result }
    {
        if guess < known && guess < self.versions.len() && number <= self.versions[guess] as u64 {
            guess
        } else {
            known
        }
    }

    // How many versions are below the number, between the first `low` of them and the first `high`.
    fn search(&self, number: u64, mut low: usize, mut high: usize) -> usize
        requires sorted { IsNonDecreasing self.now.versions.items }
        requires low { IsBelow self.now.versions.items number low }
        requires high { IsFrom self.now.versions.items number high }
        ensures below { IsBelow self.now.versions.items number result }
        ensures from { IsFrom self.now.versions.items number result }
    {
        'halves: while low < high {
            let middle = low + (high - low) / 2;
            if (self.versions[middle] as u64) < number {
                low = middle + 1;
            } else {
                high = middle;
            }
        }
        low
    }

    // Where the block starts, as far as that is known.
    fn start_of(&self, block: usize) -> usize {
        match self.starts.get(block) {
            Some(start) => *start as usize,
            None => self.versions.len(),
        }
    }

    // A guess at how many versions are below the number, if its block's are spread evenly from `low` up to `high`.
    fn guess(&self, number: u64, low: usize, high: usize) -> usize {
        let shift = self.shift % 64;
        let into = number - (number >> shift << shift);
        let count = high.saturating_sub(low) as u64;
        low.saturating_add((into.saturating_mul(count) >> shift) as usize)
    }

    // How many versions are below the number. The guess is tried first, then places some way off, then the block's bounds.
    fn below(&self, number: u64) -> usize
        requires { IsNonDecreasing self.now.versions.items }
        ensures below { IsBelow self.now.versions.items number result }
        ensures from { IsFrom self.now.versions.items number result }
    {
        let block = block_of(number, self.shift);
        let start = self.start_of(block);
        let end = self.start_of(block.saturating_add(1));
        let guess = self.guess(number, start, end);
        let low = self.raised(number, 0, guess);
        let high = self.lowered(number, self.versions.len(), guess);
        let low = self.raised(number, low, guess.saturating_sub(16));
        let high = self.lowered(number, high, guess.saturating_add(16));
        let low = self.raised(number, low, guess.saturating_sub(64));
        let high = self.lowered(number, high, guess.saturating_add(64));
        let low = self.raised(number, low, start);
        let high = self.lowered(number, high, end);
        self.search(number, low, high)
    }

    // How many versions are below the number, given that the first `first` of them are: mostly these are all, or all but one.
    fn next(&self, number: u64, first: usize) -> usize
        requires sorted { IsNonDecreasing self.now.versions.items }
        requires first { IsBelow self.now.versions.items number first }
        ensures below { IsBelow self.now.versions.items number result }
        ensures from { IsFrom self.now.versions.items number result }
    {
        let end = self.lowered(number, self.versions.len(), first);
        let next = self.raised(number, first, first.saturating_add(1));
        let end = self.lowered(number, end, next);
        self.search(number, next, end)
    }

    /// How often a version occurs among them.
    pub fn count(&self, version: u32) -> usize
        requires { IsNonDecreasing self.now.versions.items }
        ensures { result ≡ occurrences version self.now.versions.items }
    {
        let number = version as u64;
        let first = self.below(number);
        self.next(number + 1, first).saturating_sub(first)
    }

    /// How often the version before and the version occur among them.
    pub fn both(&self, version: u32) -> (usize, usize)
        requires sorted { IsNonDecreasing self.now.versions.items }
        requires later { 0 < version }
        ensures before { result.0 ≡ occurrences (version - 1) self.now.versions.items }
        ensures here { result.1 ≡ occurrences version self.now.versions.items }
    {
        let number = version as u64;
        let before = self.below(number - 1);
        let here = self.next(number, before);
        let after = self.next(number + 1, here);
        (here.saturating_sub(before), after.saturating_sub(here))
    }
}
