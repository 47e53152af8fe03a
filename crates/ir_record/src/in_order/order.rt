//! Turns by an order.

ghost use Rattle.std.specs.Prelude.{replicate, true, OnOk, IfErr};
ghost use Rattle.ir_flat.specs.Flat.{tables};
ghost use Rattle.ir_record.specs.Progress.{TookSteps, TookTurns};
ghost use Rattle.ir_record.specs.Recorders.{progress_of, CanContinue, StopsIn, StopsInTurns, StaysReady};
ghost use Rattle.ir_record.specs.Recording.{turns_of_items};

use crate::in_order::recorder::Recorder;
use crate::in_order::turn::Failed;
use crate::item::Item;
use crate::world::World;

impl<W: World> Recorder<'_, W> {
    // `count` turns of thread t; none of them is a step if there is no such thread.
    fn turns(&mut self, t: usize, count: u64) -> Result<(), Failed>
        requires { CanContinue W.answers W.broken self.old }
        ensures took { OnOk result (TookSteps (replicate count t) (progress_of W.answers self.old) (progress_of W.answers self.new)) }
        ensures stopped { IfErr result (StopsIn W.answers (replicate count t) (tables self.old.guest.flat) self.old self.new.worlds.items) }
        ensures stays { StaysReady W.answers W.broken W.origin self.old self.new result }
    {
        let mut left = count;
        'turns: while left > 0 {
            if t >= self.guest.flat.threads().len() {
                return Ok(());
            }
            let (ran, asked) = self.guest.run(t, left - 1);
            if !self.turn_asked(t, asked)? {
                return Ok(());
            }
            left -= ran + 1;
        }
        Ok(())
    }

    // `count` turns of thread t, in which its tries are refused; none of them is a step if there is no such thread.
    fn turns_refused(&mut self, t: usize, count: u64) -> Result<(), Failed>
        requires { CanContinue W.answers W.broken self.old }
        ensures took { OnOk result (TookTurns (replicate count (t, true)) (progress_of W.answers self.old) (progress_of W.answers self.new)) }
        ensures stopped { IfErr result (StopsInTurns W.answers (replicate count (t, true)) self.old self.new.worlds.items) }
        ensures stays { StaysReady W.answers W.broken W.origin self.old self.new result }
    {
        let mut left = count;
        'turns: while left > 0 {
            if !self.turn_refused(t)? {
                return Ok(());
            }
            left -= 1;
        }
        Ok(())
    }

    // The turns of an item.
    fn follow_item(&mut self, item: Item) -> Result<(), Failed>
        requires { CanContinue W.answers W.broken self.old }
        ensures took { OnOk result (TookTurns (replicate item.count (item.thread, item.refused)) (progress_of W.answers self.old) (progress_of W.answers self.new)) }
        ensures stopped { IfErr result (StopsInTurns W.answers (replicate item.count (item.thread, item.refused)) self.old self.new.worlds.items) }
        ensures stays { StaysReady W.answers W.broken W.origin self.old self.new result }
    {
        if item.refused {
            self.turns_refused(item.thread as usize, item.count)
        } else {
            self.turns(item.thread as usize, item.count)
        }
    }

    // The turns of an order, one after the other. Those of a thread that has no step take no time.
    pub fn follow(&mut self, order: &[Item]) -> Result<(), Failed>
        requires { CanContinue W.answers W.broken self.old }
        ensures took { OnOk result (TookTurns (turns_of_items order.now) (progress_of W.answers self.old) (progress_of W.answers self.new)) }
        ensures stopped { IfErr result (StopsInTurns W.answers (turns_of_items order.now) self.old self.new.worlds.items) }
        ensures stays { StaysReady W.answers W.broken W.origin self.old self.new result }
    {
        'order: for item in order {
            self.follow_item(*item)?;
        }
        Ok(())
    }
}
