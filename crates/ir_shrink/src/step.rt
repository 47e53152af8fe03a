//! A turn of one thread.

ghost use Rattle.std.specs.Prelude.{◌≡◌, ◌<◌, [], ◌∷◌, ◌++◌, Bool, true, false, length, map, slice_set, IfOk, OnOk};
ghost use Rattle.ir_flat.specs.Flat.{machine, tables, thread_of};
ghost use Rattle.ir_record.specs.Refusing.{Tries};
ghost use Rattle.ir_record.specs.Worlds.{answers_at, NoneFailed, AreSameWorlds};
ghost use Rattle.ir_runs.specs.Run.{Can};
ghost use Rattle.ir_shrink.specs.Moments.{IsReady, IsTurn, moment_of};
ghost use Rattle.ir_shrink.specs.Steps.{GoesOn, IsOwnAsk, MovedBy};
ghost use Rattle.ir_thread.specs.State.{ask_of, is_result};
ghost use Rattle.ir_thread.specs.declared.ask.Ask.TheVariants.{Env, Try};

use crate::mover::Mover;
use ir_flat::Flat;
use ir_record::World;
use ir_runs::EnvKind;
use ir_thread::Ask;
use std::alloc::AllocError;

// What the world of thread t answers to the call.
fn answer_to<W: World>(worlds: &mut Vec<W>, t: usize, kind: EnvKind) -> Result<u32, AllocError>
    requires thread { t < length worlds.old.items }
    requires works { NoneFailed (map W.broken worlds.old.items) }
    ensures fits { IfOk result (λ value. is_result kind value ≡ true) }
    ensures gained { IfOk result (λ value. map W.answers worlds.new.items ≡ slice_set (map W.answers worlds.old.items) t (answers_at (map W.answers worlds.old.items) t ++ (kind, value) ∷ [])) }
    ensures works { OnOk result (NoneFailed (map W.broken worlds.new.items)) }
    ensures each { OnOk result (length worlds.new.items ≡ length worlds.old.items) }
    ensures kept { AreSameWorlds W.origin worlds.old.items worlds.new.items }
{
    match worlds[t].answer(kind) {
        Ok(value) => Ok(value),
        // A world that counts its time fails only where it has no room for more answers.
        Err(_) => Err(AllocError),
    }
}

// Thread t, which asks so, takes a step with this result.
fn call(flat: &mut Flat<'_>, t: usize, asked: Ask, value: u32)
    requires thread { t < length flat.old.threads }
    requires asked { asked ≡ ask_of flat.old.code (thread_of flat.old t) }
    requires can { Can (machine flat.old) (tables flat.old) (t, value) }
    requires tries { (refused : Bool) → Tries (machine flat.old) (tables flat.old) refused (t, value) }
    ensures { (refused : Bool) → MovedBy refused t value flat.old flat.new }
{
    let _ = flat.take(t, asked, value);
}

// Thread t, which tries to enter an object, is refused.
fn refuse(flat: &mut Flat<'_>, t: usize, asked: Ask)
    requires thread { t < length flat.old.threads }
    requires asked { asked ≡ ask_of flat.old.code (thread_of flat.old t) }
    requires can { Can (machine flat.old) (tables flat.old) (t, 0) }
    ensures { MovedBy true t 0 flat.old flat.new }
{
    let _ = flat.take(t, asked, 0);
}

// Thread t, which tries to enter an object, does if it can, and else continues without.
fn enter_or_pass(flat: &mut Flat<'_>, t: usize, asked: Ask) -> u32
    requires thread { t < length flat.old.threads }
    requires asked { asked ≡ ask_of flat.old.code (thread_of flat.old t) }
    requires can { Can (machine flat.old) (tables flat.old) (t, 0) }
    ensures { MovedBy false t result flat.old flat.new }
{
    if flat.take(t, asked, 1).is_ok() {
        return 1;
    }
    let _ = flat.take(t, asked, 0);
    0
}

// Thread t, which asks neither, takes its next step, if it has one; and whether it had.
fn go(flat: &mut Flat<'_>, t: usize, asked: Ask) -> bool
    requires thread { t < length flat.old.threads }
    requires asked { asked ≡ ask_of flat.old.code (thread_of flat.old t) }
    ensures { (refused : Bool) → GoesOn result asked refused t flat.old flat.new }
{
    flat.take(t, asked, 0).is_ok()
}

impl<W: World> Mover<'_, W> {
    // Thread t asks its world, which answers, and goes on.
    fn call_turn(&mut self, t: usize, kind: EnvKind) -> Result<(), AllocError>
        requires ready { IsReady W.broken self.old }
        requires thread { t < length self.old.flat.threads }
        requires asked { Env kind ≡ ask_of self.old.flat.code (thread_of self.old.flat t) }
        ensures turn { OnOk result ((refused : Bool) → IsTurn true t refused (moment_of W.answers self.old) (moment_of W.answers self.new)) }
        ensures ready { OnOk result (IsReady W.broken self.new) }
        ensures items { self.new.items ≡ self.old.items }
        ensures kept { AreSameWorlds W.origin self.old.worlds.items self.new.worlds.items }
    {
        let value = answer_to(&mut self.worlds, t, kind)?;
        call(&mut self.flat, t, Ask::Env(kind), value);
        Ok(())
    }

    // Thread t tries to enter an object, and is refused.
    fn refused_turn(&mut self, t: usize, object: u8)
        requires ready { IsReady W.broken self.old }
        requires thread { t < length self.old.flat.threads }
        requires asked { Try object ≡ ask_of self.old.flat.code (thread_of self.old.flat t) }
        ensures turn { IsTurn true t true (moment_of W.answers self.old) (moment_of W.answers self.new) }
        ensures ready { IsReady W.broken self.new }
        ensures items { self.new.items ≡ self.old.items }
        ensures worlds { self.new.worlds ≡ self.old.worlds }
    {
        refuse(&mut self.flat, t, Ask::Try(object));
    }

    // Thread t tries to enter an object: it enters if no thread is inside, and otherwise continues without.
    fn try_turn(&mut self, t: usize, object: u8)
        requires ready { IsReady W.broken self.old }
        requires thread { t < length self.old.flat.threads }
        requires asked { Try object ≡ ask_of self.old.flat.code (thread_of self.old.flat t) }
        ensures turn { IsTurn true t false (moment_of W.answers self.old) (moment_of W.answers self.new) }
        ensures ready { IsReady W.broken self.new }
        ensures items { self.new.items ≡ self.old.items }
        ensures worlds { self.new.worlds ≡ self.old.worlds }
    {
        let _ = enter_or_pass(&mut self.flat, t, Ask::Try(object));
    }

    // Thread t, which asks neither, takes its next step, if it has one; and whether it had.
    fn own_turn(&mut self, t: usize, asked: Ask) -> bool
        requires ready { IsReady W.broken self.old }
        requires thread { t < length self.old.flat.threads }
        requires asked { asked ≡ ask_of self.old.flat.code (thread_of self.old.flat t) }
        requires own { IsOwnAsk asked }
        ensures turn { (refused : Bool) → IsTurn result t refused (moment_of W.answers self.old) (moment_of W.answers self.new) }
        ensures ready { IsReady W.broken self.new }
        ensures items { self.new.items ≡ self.old.items }
        ensures worlds { self.new.worlds ≡ self.old.worlds }
    {
        go(&mut self.flat, t, asked)
    }

    // A turn of thread t, which asks so: whether it took a step. A try in it is refused, or enters if no thread is inside.
    pub fn turn(&mut self, t: usize, asked: Ask, refused: bool) -> Result<bool, AllocError>
        requires ready { IsReady W.broken self.old }
        requires thread { t < length self.old.flat.threads }
        requires asked { asked ≡ ask_of self.old.flat.code (thread_of self.old.flat t) }
        ensures turn { IfOk result (λ moved. IsTurn moved t refused (moment_of W.answers self.old) (moment_of W.answers self.new)) }
        ensures ready { OnOk result (IsReady W.broken self.new) }
        ensures items { self.new.items ≡ self.old.items }
        ensures kept { AreSameWorlds W.origin self.old.worlds.items self.new.worlds.items }
    {
        match asked {
            Ask::Env(kind) => {
                self.call_turn(t, kind)?;
                Ok(true)
            }
            Ask::Try(object) => {
                if refused {
                    self.refused_turn(t, object);
                    return Ok(true);
                }
                self.try_turn(t, object);
                Ok(true)
            }
            _ => Ok(self.own_turn(t, asked)),
        }
    }
}
