//! A turn of one thread.

ghost use Rattle.std.specs.Prelude.{◌≡◌, ◌<◌, [], ◌∷◌, ◌++◌, true, false, length, map, slice_set, IfOk, OnOk, IfErr, OnErr};
ghost use Rattle.ir_flat.specs.Flat.{IsFlat, thread_of, tables, machine};
ghost use Rattle.ir_runs.specs.Run.{HasNone};
ghost use Rattle.ir_thread.specs.State.{ask_of, is_result};
ghost use Rattle.ir_record.specs.Progress.{TookIf, TookTurns};
ghost use Rattle.ir_record.specs.Worlds.{answers_at, NoneFailed, AreSameWorlds};
ghost use Rattle.ir_record.specs.Recorders.{progress_of, CanContinue, NamesFirst, StopsAtOnce, StopsInTurns, StaysReady};

use crate::in_order::recorder::Recorder;
use crate::world::World;
use ir_runs::EnvKind;
use ir_thread::Ask;

// The world of this thread failed.
#[derive(Clone, Copy)]
pub struct Failed {
    pub thread: u8,
}

// What the world of thread t answers to the call.
fn answer_to<W: World>(worlds: &mut Vec<W>, t: usize, kind: EnvKind) -> Result<u32, Failed>
    requires thread { t < length worlds.old.items }
    requires few { t < 256 }
    requires works { NoneFailed (map W.broken worlds.old.items) }
    ensures fits { IfOk result (λ value. is_result kind value ≡ true) }
    ensures gained { IfOk result (λ value. map W.answers worlds.new.items ≡ slice_set (map W.answers worlds.old.items) t (answers_at (map W.answers worlds.old.items) t ++ (kind, value) ∷ [])) }
    ensures works { OnOk result (NoneFailed (map W.broken worlds.new.items)) }
    ensures failed { IfErr result (NamesFirst W.broken worlds.new.items) }
    ensures named { IfErr result (λ f. f.thread ≡ t) }
    ensures no_more { OnErr result (map W.answers worlds.new.items ≡ map W.answers worlds.old.items) }
    ensures kept { AreSameWorlds W.origin worlds.old.items worlds.new.items }
{
    match worlds[t].answer(kind) {
        Ok(value) => Ok(value),
        Err(_) => Err(Failed { thread: t as u8 }),
    }
}

impl<W: World> Recorder<'_, W> {
    // Thread t, which asks so, takes its next step, if it has one; and whether it had.
    #[inline(always)]
    pub fn turn_asked(&mut self, t: usize, asked: Ask) -> Result<bool, Failed>
        requires ready { CanContinue W.answers W.broken self.old }
        requires flat { IsFlat self.old.guest.flat }
        requires thread { t < length self.old.guest.flat.threads }
        requires asked { asked ≡ ask_of self.old.guest.flat.code (thread_of self.old.guest.flat t) }
        ensures took { IfOk result (λ moved. TookIf moved (t ∷ []) (progress_of W.answers self.old) (progress_of W.answers self.new)) }
        ensures none { IfOk result (λ moved. moved ≡ false → self.new.guest.flat ≡ self.old.guest.flat) }
        ensures stopped { IfErr result (StopsAtOnce W.answers t self.old self.new.worlds.items) }
        ensures stays { StaysReady W.answers W.broken W.origin self.old self.new result }
    {
        match asked {
            Ask::Env(kind) => {
                let value = answer_to(&mut self.worlds, t, kind)?;
                self.guest.answer(t, kind, value);
                Ok(true)
            }
            Ask::Enter(object, access) => Ok(self.guest.enter(t, object, access)),
            Ask::Try(object) => {
                self.guest.try_to_enter(t, object);
                Ok(true)
            }
            _ => Ok(self.guest.go(t, asked)),
        }
    }

    // A turn of thread t in which a try is refused, and whether a step was taken. If it asks no try, it takes its next step, if it
    // has one.
    pub fn turn_refused(&mut self, t: usize) -> Result<bool, Failed>
        requires ready { CanContinue W.answers W.broken self.old }
        ensures took { OnOk result (TookTurns ((t, true) ∷ []) (progress_of W.answers self.old) (progress_of W.answers self.new)) }
        ensures none { IfOk result (λ moved. moved ≡ false → HasNone (machine self.new.guest.flat) (tables self.new.guest.flat) t) }
        ensures stopped { IfErr result (StopsInTurns W.answers ((t, true) ∷ []) self.old self.new.worlds.items) }
        ensures stays { StaysReady W.answers W.broken W.origin self.old self.new result }
    {
        if t >= self.guest.flat.threads().len() {
            return Ok(false);
        }
        let asked = self.guest.ask(t);
        if let Ask::Try(object) = asked {
            self.guest.refuse(t, object);
            return Ok(true);
        }
        let moved = self.turn_asked(t, asked)?;
        Ok(moved)
    }
}
