//! Entries found by their numbers, and by their cuts.

ghost use Rattle.std.specs.Prelude.{◌≡◌, ◌<◌, ◌≤◌, ℕ, true, length, slice_get, Some};
ghost use Rattle.ir_image.specs.Guest.{most_threads};
ghost use Rattle.ir_checkpoint.specs.Keeping as keeping;
ghost use Rattle.ir_checkpoint.specs.Store as store;

use crate::entry::Entry;

// The place of the entry of a number, or the number of entries if there is none.
pub fn place_of(entries: &[Entry], n: u32) -> usize
    ensures value { result ≡ store.frame_place n entries.now }
    ensures within { result ≤ length entries.now }
{
    for place in 0..entries.len() {
        let entry = &entries[place];
        if entry.number == n {
            return place;
        }
    }
    entries.len()
}

// Whether no position of the first is above the second's.
fn is_below(low: &[u64], high: &[u64]) -> bool
    requires { length low.now ≡ length high.now }
    ensures { result ≡ keeping.is_below low.now high.now }
{
    for t in 0..low.len() {
        if low[t] > high[t] {
            return false;
        }
    }
    true
}

// How many steps lie before a cut.
fn total(cut: &[u64]) -> u128
    requires { length cut.now ≤ most_threads }
    ensures { result ≡ keeping.total cut.now }
{
    let mut all = 0;
    for position in cut {
        all += *position as u128;
    }
    all
}

// The steps before an entry's cut, if it is at or below this one.
fn steps_below(entry: &Entry, cut: &[u64]) -> Option<u128>
    requires threads { length entry.now.cut ≡ length cut.now }
    requires few { length cut.now ≤ most_threads }
    ensures { result ≡ store.steps_below entry.now cut.now }
{
    let positions = entry.cut.positions();
    if is_below(positions, cut) {
        Some(total(positions))
    } else {
        None
    }
}

// The place of the entry at or below the cut that has the most steps before it.
pub fn nearest(entries: &[Entry], cut: &[u64]) -> usize
    requires each { store.AreEntries (length cut.now) entries.now }
    requires few { length cut.now ≤ most_threads }
    requires start { store.HasStart entries.now }
    ensures { store.IsNearestPlace cut.now entries.now result }
{
    let mut best = entries.len() - 1;
    let mut most = 0;
    for place in 0..entries.len() {
        match steps_below(&entries[place], cut) {
            Some(steps) if steps > most => {
                best = place;
                most = steps;
            }
            _ => {}
        }
    }
    best
}
