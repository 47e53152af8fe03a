//! Turns by items, and passes over all threads.

ghost use Rattle.std.specs.Prelude.{◌≡◌, ◌<◌, ◌≤◌, ◌⊎◌, ℕ, false, length, replicate, IfOk, OnOk};
ghost use Rattle.ir_record.specs.Recording.{turns_of_items};
ghost use Rattle.ir_record.specs.Worlds.{AreSameWorlds};
ghost use Rattle.ir_shrink.specs.Items.{AreJoined, pass_of};
ghost use Rattle.ir_shrink.specs.Moments.{Followed, FollowedPasses, HasNoStep, IsReady, Took, moment_of};

use crate::mover::Mover;
use crate::note::note;
use ir_record::{Item, World};
use std::alloc::AllocError;

// Whether a step was taken before, or one of these.
fn has_moved(moved: bool, taken: u64) -> bool
    ensures { result ≡ false → (moved ≡ false) × (taken ≡ 0) }
{
    moved || taken > 0
}

impl<W: World> Mover<'_, W> {
    // At most `count` turns of thread t, until it has no step: how many took one.
    fn turns(&mut self, t: usize, count: u64, refused: bool) -> Result<u64, AllocError>
        requires ready { IsReady W.broken self.old }
        requires thread { t < length self.old.flat.threads }
        ensures within { IfOk result (λ taken. taken ≤ count) }
        ensures took { IfOk result (λ taken. Took (replicate taken (t, refused)) (replicate taken (t, refused)) (moment_of W.answers self.old) (moment_of W.answers self.new)) }
        ensures rest { IfOk result (λ taken. (taken ≡ count) ⊎ HasNoStep (moment_of W.answers self.new) t) }
        ensures ready { OnOk result (IsReady W.broken self.new) }
        ensures items { self.new.items ≡ self.old.items }
        ensures kept { AreSameWorlds W.origin self.old.worlds.items self.new.worlds.items }
    {
        let mut taken = 0;
        'turns: while taken < count {
            let (ran, asked) = self.flat.run_to_ask(t, count - taken - 1);
            taken += ran;
            if !self.turn(t, asked, refused)? {
                return Ok(taken);
            }
            taken += 1;
        }
        Ok(taken)
    }

    // The turns of an item. Those that take a step are noted; how many these are.
    fn follow_item(&mut self, item: Item) -> Result<u64, AllocError>
        requires ready { IsReady W.broken self.old }
        ensures followed { OnOk result (Followed (replicate item.count (item.thread, item.refused)) (moment_of W.answers self.old) (moment_of W.answers self.new)) }
        ensures rest { IfOk result (λ taken. taken ≡ 0 → 0 < item.count → HasNoStep (moment_of W.answers self.new) item.thread) }
        ensures still { IfOk result (λ taken. taken ≡ 0 → (t : ℕ) → HasNoStep (moment_of W.answers self.old) t → HasNoStep (moment_of W.answers self.new) t) }
        ensures ready { OnOk result (IsReady W.broken self.new) }
        ensures joined { OnOk result (AreJoined self.old.items.items → AreJoined self.new.items.items) }
        ensures kept { AreSameWorlds W.origin self.old.worlds.items self.new.worlds.items }
    {
        let t = item.thread as usize;
        if t >= self.flat.threads().len() {
            return Ok(0);
        }
        let count = self.turns(t, item.count, item.refused)?;
        note(&mut self.items, Item { count, ..item })?;
        Ok(count)
    }

    // The turns of items, one after the other. Those that take a step are noted.
    pub fn follow(&mut self, items: &[Item]) -> Result<(), AllocError>
        requires ready { IsReady W.broken self.old }
        ensures followed { OnOk result (Followed (turns_of_items items.now) (moment_of W.answers self.old) (moment_of W.answers self.new)) }
        ensures ready { OnOk result (IsReady W.broken self.new) }
        ensures joined { OnOk result (AreJoined self.old.items.items → AreJoined self.new.items.items) }
        ensures kept { AreSameWorlds W.origin self.old.worlds.items self.new.worlds.items }
    {
        'items: for item in items {
            self.follow_item(*item)?;
        }
        Ok(())
    }

    // A pass over the threads, and whether a step was taken.
    fn pass(&mut self, endless: u64) -> Result<bool, AllocError>
        requires ready { IsReady W.broken self.old }
        requires some { 0 < endless }
        ensures followed { OnOk result (Followed (turns_of_items (pass_of (length self.old.flat.threads) endless)) (moment_of W.answers self.old) (moment_of W.answers self.new)) }
        ensures none { IfOk result (λ moved. moved ≡ false → (t : ℕ) → t < length self.old.flat.threads → HasNoStep (moment_of W.answers self.new) t) }
        ensures ready { OnOk result (IsReady W.broken self.new) }
        ensures joined { OnOk result (AreJoined self.old.items.items → AreJoined self.new.items.items) }
        ensures kept { AreSameWorlds W.origin self.old.worlds.items self.new.worlds.items }
    {
        let mut moved = false;
        'each: for t in 0..self.flat.threads().len() {
            let item = Item {
                thread: t as u8,
                count: endless,
                refused: false,
            };
            let taken = self.follow_item(item)?;
            moved = has_moved(moved, taken);
        }
        Ok(moved)
    }

    // Passes until no thread has a step.
    pub fn finish(&mut self, endless: u64) -> Result<(), AllocError>
        requires ready { IsReady W.broken self.old }
        requires some { 0 < endless }
        ensures followed { OnOk result (FollowedPasses endless (moment_of W.answers self.old) (moment_of W.answers self.new)) }
        ensures none { OnOk result ((t : ℕ) → t < length self.old.flat.threads → HasNoStep (moment_of W.answers self.new) t) }
        ensures ready { OnOk result (IsReady W.broken self.new) }
        ensures joined { OnOk result (AreJoined self.old.items.items → AreJoined self.new.items.items) }
        ensures kept { AreSameWorlds W.origin self.old.worlds.items self.new.worlds.items }
    {
        // A guest takes fewer steps than there are passes here.
        'passes: for _ in 0..u64::MAX {
            if !self.pass(endless)? {
                return Ok(());
            }
        }
        Err(AllocError)
    }
}
