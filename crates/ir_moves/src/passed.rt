//! Where the states lie that moves have passed.

ghost use Rattle.std.specs.Prelude.{◌<◌, length};

use arrayvec::ArrayVec;

#[cfg(test)]
mod tests;

/// The most that are kept at the same time.
pub const MOST_PASSED: usize = 64;

// A gap is multiplied by this before it is divided by a distance: both are at most 2^43.
const SCALE: u64 = 1 << 20;

/// A state that a move has passed: the number under which it is kept, and how many steps its threads had taken in all.
#[derive(Clone, Copy, Default)]
pub struct PassedCut {
    pub number: u32,
    pub steps: u64,
}

/// At most 64 of them.
#[derive(Drop)]
pub struct Passed {
    cuts: ArrayVec<PassedCut, MOST_PASSED>,
}

// What is lost with one of them: the gap between its neighbours, the start and the present among these, by its distance from the present.
fn loss(cuts: &[PassedCut], index: usize, present: u64) -> u64
    requires { index < length cuts.now }
{
    let own = cuts[index].steps;
    let mut low = 0;
    let mut high = own.max(present);
    for (i, cut) in cuts.iter().enumerate() {
        if i != index && cut.steps <= own {
            low = low.max(cut.steps);
        }
        if i != index && cut.steps >= own {
            high = high.min(cut.steps);
        }
    }
    let gap = high.saturating_sub(low);
    gap.saturating_mul(SCALE) / own.abs_diff(present).max(1)
}

impl Passed {
    /// None.
    pub fn new() -> Passed {
        Passed {
            cuts: ArrayVec::new(),
        }
    }

    /// Whether there is no room for another.
    pub fn is_full(&self) -> bool {
        self.cuts.is_full()
    }

    /// Whether there is none.
    pub fn is_empty(&self) -> bool {
        self.cuts.is_empty()
    }

    /// Takes one away. None where there is none.
    pub fn take_last(&mut self) -> Option<PassedCut> {
        self.cuts.pop()
    }

    /// Adds one, if there is room.
    pub fn add(&mut self, cut: PassedCut) {
        let _ = self.cuts.try_push(cut);
    }

    // Which of them is missed the least, where this many steps are before the present.
    fn least_useful(&self, present: u64) -> usize {
        let cuts = self.cuts.as_slice();
        let mut least = 0;
        let mut lost = u64::MAX;
        for index in 0..cuts.len() {
            let own = loss(cuts, index, present);
            if own < lost {
                least = index;
                lost = own;
            }
        }
        least
    }

    /// Takes away the one that is missed the least, with `present` steps before the present: gaps between the others then stay about in
    /// proportion to their distance from the present. None if there is none.
    pub fn give_up(&mut self, present: u64) -> Option<PassedCut> {
        let index = self.least_useful(present);
        self.cuts.swap_pop(index)
    }
}
