//! Turns of a guest of one thread.

ghost use Rattle.std.specs.Prelude.{◌≡◌, ◌<◌, ℕ, [], ◌∷◌, false, length, replicate, IfOk, OnOk, IfErr};
ghost use Rattle.ir_thread.specs.State.{ask_of};
ghost use Rattle.ir_flat.specs.Flat.{IsFlat, thread_of, tables, machine};
ghost use Rattle.ir_runs.specs.Run.{HasNone};
ghost use Rattle.ir_record.specs.Progress.{TookSteps, TookIf};
ghost use Rattle.ir_record.specs.Recorders.{progress_of, CanContinue, StopsAtOnce, StopsIn, StaysReady};

use crate::in_order::recorder::Recorder;
use crate::in_order::turn::Failed;
use crate::world::World;
use ir_thread::Ask;

impl<W: World> Recorder<'_, W> {
    // `turn_asked`, with a case for each frequent ask. Where it is known which ask it is, the compiler leaves out the tests of it.
    #[inline(always)]
    fn turn_by_ask(&mut self, t: usize, asked: Ask) -> Result<bool, Failed>
        requires ready { CanContinue W.answers W.broken self.old }
        requires flat { IsFlat self.old.guest.flat }
        requires thread { t < length self.old.guest.flat.threads }
        requires asked { asked ≡ ask_of self.old.guest.flat.code (thread_of self.old.guest.flat t) }
        ensures took { IfOk result (λ moved. TookIf moved (t ∷ []) (progress_of W.answers self.old) (progress_of W.answers self.new)) }
        ensures none { IfOk result (λ moved. moved ≡ false → self.new.guest.flat ≡ self.old.guest.flat) }
        ensures stopped { IfErr result (StopsAtOnce W.answers t self.old self.new.worlds.items) }
        ensures stays { StaysReady W.answers W.broken W.origin self.old self.new result }
    {
        match asked {
            Ask::Enter(object, access) => self.turn_asked(t, Ask::Enter(object, access)),
            Ask::Leave(object, access) => self.turn_asked(t, Ask::Leave(object, access)),
            Ask::Get(object, index) => self.turn_asked(t, Ask::Get(object, index)),
            Ask::Put(object, index, value) => self.turn_asked(t, Ask::Put(object, index, value)),
            _ => self.turn_asked(t, asked),
        }
    }

    // Turns of the only thread until it has no step.
    pub fn turns_alone(&mut self) -> Result<(), Failed>
        requires ready { CanContinue W.answers W.broken self.old }
        requires one { length self.old.guest.flat.threads ≡ 1 }
        ensures took { OnOk result ((count : ℕ) × TookSteps (replicate count 0) (progress_of W.answers self.old) (progress_of W.answers self.new)) }
        ensures over { OnOk result (HasNone (machine self.new.guest.flat) (tables self.new.guest.flat) 0) }
        ensures stopped { IfErr result (λ f. (count : ℕ) × StopsIn W.answers (replicate count 0) (tables self.old.guest.flat) self.old self.new.worlds.items f) }
        ensures stays { StaysReady W.answers W.broken W.origin self.old self.new result }
    {
        'turns: loop {
            let (ran, asked) = self.guest.run(0, u64::MAX);
            if !self.turn_by_ask(0, asked)? {
                return Ok(());
            }
        }
    }
}
