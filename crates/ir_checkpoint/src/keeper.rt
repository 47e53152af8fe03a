//! Cuts that are kept, with the state at each.

ghost use Rattle.std.specs.Prelude.{◌≡◌, ◌≢◌, ◌↔◌, ◌+◌, ◌<◌, ◌≤◌, ℕ, length, slice_get, IfOk, OnErr, IsErrOf, MatchOption, Some, None, option_map};
ghost use Rattle.ir_checkpoint.specs.Keeping.{Keeping, IsCutFor, IsLike, IsNearest, IsNew, after_drop, after_keep, cut_in, kept_as, most_states, page_count};
ghost use Rattle.std.specs.List.{All};
ghost use Rattle.ir_image.specs.Guest.{most_threads};
ghost use Rattle.ir_checkpoint.specs.Store as store;
ghost use Rattle.ir_checkpoint.specs.Gathered.{HasMemory};
ghost use Rattle.ir_checkpoint.specs.declared.keeper.KeepErr.TheVariants.{Full, NoMem};

use crate::counting::stored;
use crate::entry::Entry;
use crate::finding::{nearest, place_of};
use crate::gathering::{copies, cut_of, frames};
use crate::store::{changed, threads_at};
use ir_cut::Cut;
use ir_fit::Fitted;
use ir_weave::State;
use std::alloc::{AllocError, AllocFailed, Global};
use std::marker::Model;

/// The most cuts that are kept: the start, and 64 beside it.
pub const MOST_CHECKPOINTS: usize = 65;

/// Why a state isn't kept.
#[derive(Debug, Drop)]
pub enum KeepErr {
    /// Out of memory.
    NoMem,
    /// 64 are kept beside the start.
    Full,
}

impl From<AllocError> for KeepErr {
    ghost from_gives = { λ _ e. e ≡ NoMem };

    fn from(_e: AllocError) -> KeepErr {
        KeepErr::NoMem
    }
}

impl<T: Drop> From<AllocFailed<T>> for KeepErr {
    ghost from_gives = { λ _ e. e ≡ NoMem };

    fn from(_e: AllocFailed<T>) -> KeepErr {
        KeepErr::NoMem
    }
}

/// Cuts of one replay that are kept under numbers, each with the state there: the start as 0, and at most 64 others. Pages
/// of private memory that stay the same from one to the next are kept once.
#[derive(Drop)]
pub struct Keeper {
    entries: Vec<Entry>,
    last: u32,
}

impl Model for Keeper {
    ghost Value = { Keeping };

    ghost view = { λ k. record { kept = store.all_kept k.entries.items; last = k.last } };

    ghost invariant = { λ k. store.IsPageStore (store.thread_count k.entries.items) k.last k.entries.items };
}

// The entry of a state over older ones.
fn entry_of(alloc: Global, number: u32, state: &State, older: &[Entry]) -> Result<Entry, AllocError>
    requires { store.AreEntries (length state.now.threads) older.now }
    ensures value { IfOk result (λ entry. entry ≡ store.entry_of number state.now older.now) }
    ensures memories { IfOk result (λ _. All HasMemory state.now.threads) }
{
    let pages = changed(alloc, number, state.threads(), older)?;
    Ok(Entry {
        number,
        cut: cut_of(alloc, state.threads())?,
        frames: frames(alloc, state.threads())?,
        objects: copies(alloc, state.objects())?,
        pages,
    })
}

// The state that the newest entry keeps.
fn state_of(alloc: Global, entries: &[Entry]) -> Result<State, AllocError>
    requires some { 0 < length entries.now }
    requires few { store.thread_count entries.now ≤ most_threads }
    requires each { store.AreEntries (store.thread_count entries.now) entries.now }
    requires full { store.AreFull (store.in_force entries.now) }
    ensures { IfOk result (λ state. state ≡ store.state_of entries.now) }
{
    let entry = &entries[0];
    let threads = threads_at(alloc, entry.frames.as_slice(), entries)?;
    let objects = copies(alloc, entry.objects.as_slice())?;
    Ok(State::build(threads, objects))
}

// Takes an entry away; its pages go to the next newer one.
fn take_away(entries: &mut Vec<Entry>, place: usize)
    requires below { place < length entries.old.items }
    requires each { (n : ℕ) × store.AreEntries n entries.old.items }
    ensures { entries.new.items ≡ store.taken_away place entries.old.items }
{
    let gone = entries.remove(place);
    if place > 0 {
        let newer = &mut entries[place - 1];
        newer.take_over(gone);
    }
}

impl Keeper {
    /// Keeps the start, as 0.
    ///
    /// # Errors
    /// Out of memory.
    pub fn new(alloc: Global, fitted: &Fitted) -> Result<Keeper, AllocError>
        ensures { IfOk result (λ keeper. IsNew fitted.now keeper) }
    {
        let start = State::start(alloc, fitted)?;
        let mut entries = Vec::with_capacity(alloc, 1)?;
        entries.push(entry_of(alloc, 0, &start, &[])?)?;
        Ok(Keeper { entries, last: 0 })
    }

    /// Keeps a state of the same replay, and answers its number: the next after the last that was given. What is kept is a
    /// copy; a page that is as at the greatest number that is kept isn't copied.
    ///
    /// # Errors
    /// `Full` where 64 are kept beside the start, and else `NoMem` where memory runs out; nothing changes then.
    #[tactic(auto, using(crate::proofs::Calls::length_of_all_kept))]
    pub fn keep(&mut self, state: &State) -> Result<u32, KeepErr>
        requires threads { IsLike state.now self.old }
        requires numbers { self.old.last < 4294967295 }
        ensures kept { IfOk result (λ n. (n ≡ self.old.last + 1) × (self.new ≡ after_keep state.now self.old)) }
        ensures refused { OnErr result (self.new ≡ self.old) }
        ensures full { IsErrOf result Full ↔ (length self.old.kept ≡ most_states) }
    {
        if self.entries.len() >= MOST_CHECKPOINTS {
            return Err(KeepErr::Full);
        }
        let alloc = *self.entries.allocator();
        let number = self.last + 1;
        let entry = entry_of(alloc, number, state, self.entries.as_slice())?;
        self.entries.insert(0, entry)?;
        self.last = number;
        Ok(number)
    }

    /// The number of a kept cut at or below this one; of all that are, it has the most steps before it.
    pub fn nearest(&self, cut: &Cut) -> u32
        requires { IsCutFor cut.now self.now }
        ensures { IsNearest cut.now self.now result }
    {
        let place = nearest(self.entries.as_slice(), cut.positions());
        let entry = &self.entries[place];
        entry.number
    }

    /// The cut that is kept as n; none where n isn't kept.
    pub fn cut(&self, n: u32) -> Option<&Cut>
        ensures value { option_map (λ cut. cut.now) result ≡ option_map cut_in (kept_as n self.now.kept) }
        ensures kept { MatchOption result (kept_as n self.now.kept ≡ None) (λ _. kept_as n self.now.kept ≢ None) }
    {
        let place = place_of(self.entries.as_slice(), n);
        if place >= self.entries.len() {
            return None;
        }
        let entry = &self.entries[place];
        Some(&entry.cut)
    }

    /// The number of the kept cut at a place; the greatest number has the first, and past the last there is none.
    pub fn number_at(&self, place: usize) -> Option<u32>
        ensures { result ≡ option_map (λ k. k.number) (slice_get self.now.kept place) }
    {
        if place >= self.entries.len() {
            return None;
        }
        let entry = &self.entries[place];
        Some(entry.number)
    }

    /// The state that was kept as n, which is kept.
    ///
    /// # Errors
    /// Out of memory.
    pub fn restore(&self, n: u32) -> Result<State, AllocError>
        requires { kept_as n self.now.kept ≢ None }
        ensures { IfOk result (λ state. option_map (λ k. k.state) (kept_as n self.now.kept) ≡ Some state) }
    {
        let entries = self.entries.as_slice();
        let place = place_of(entries, n);
        state_of(*self.entries.allocator(), &entries[place..])
    }

    /// Gives up the cut kept as n, which is kept and not the start, and the pages that no other has.
    pub fn drop_kept(&mut self, n: u32)
        requires kept { kept_as n self.old.kept ≢ None }
        requires later { n ≢ 0 }
        ensures { self.new ≡ after_drop n self.old }
    {
        let place = place_of(self.entries.as_slice(), n);
        take_away(&mut self.entries, place);
    }

    /// How many threads each kept state has.
    pub fn threads(&self) -> usize
        ensures { All (λ k. length k.state.threads ≡ result) self.now.kept }
    {
        let entry = &self.entries[0];
        entry.frames.len()
    }

    /// The last number that was given.
    pub fn last(&self) -> u32
        ensures { result ≡ self.now.last }
    {
        self.last
    }

    /// How many different pages are kept. A page that is as at the greatest number that was kept before it is that same
    /// page.
    pub fn pages(&self) -> u32
        ensures { result ≡ page_count self.now }
    {
        stored(self.entries.as_slice())
    }
}
