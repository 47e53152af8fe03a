//! A step of one thread.

ghost use Rattle.std.specs.Prelude.{◌≡◌, ◌≢◌, ◌<◌, [], ◌∷◌, ◌++◌, true, length, map, slice_set, IfOk, OnOk, IfErr, ℕ};
ghost use Rattle.ir_schedule.specs.Moments.{IsNoTry, Moved};
ghost use Rattle.ir_schedule.specs.Schedules.{is_rest};
ghost use Rattle.ir_schedule.specs.declared.stop.Stop.TheVariants.{World};
ghost use Rattle.ir_flat.specs.Flat.{machine, tables, thread_of};
ghost use Rattle.ir_record.specs.Worlds.{answers_at, NoneFailed, IsFirstFailed, AreSameWorlds};
ghost use Rattle.ir_runs.specs.Run.{Can};
ghost use Rattle.ir_thread.specs.State.{ask_of, is_result, shared_ask};

use crate::stop::Stop;
use ir_flat::Flat;
use ir_record::World;
use ir_runs::EnvKind;
use ir_thread::Ask;

// Whether a thread that asks so rests; where there are tries, also before it leaves an object.
pub fn is_rest(tries: bool, asked: Ask) -> bool
    ensures { result ≡ is_rest tries (shared_ask asked) }
{
    match asked {
        Ask::Enter(_, _) | Ask::Try(_) | Ask::Done => true,
        Ask::Leave(_, _) => tries,
        _ => false,
    }
}

// What the world of thread t answers to the call.
pub fn answer_to<W: World>(worlds: &mut Vec<W>, t: usize, kind: EnvKind) -> Result<u32, Stop>
    requires thread { t < length worlds.old.items }
    requires few { t < 256 }
    requires works { NoneFailed (map W.broken worlds.old.items) }
    ensures fits { IfOk result (λ value. is_result kind value ≡ true) }
    ensures gained { IfOk result (λ value. map W.answers worlds.new.items ≡ slice_set (map W.answers worlds.old.items) t (answers_at (map W.answers worlds.old.items) t ++ (kind, value) ∷ [])) }
    ensures works { OnOk result (NoneFailed (map W.broken worlds.new.items)) }
    ensures each { OnOk result (length worlds.new.items ≡ length worlds.old.items) }
    ensures kept { AreSameWorlds W.origin worlds.old.items worlds.new.items }
    ensures why { IfErr result (λ stop. stop ≡ World t) }
    ensures failed { IfErr result (λ _. IsFirstFailed (map W.broken worlds.new.items) t) }
{
    match worlds[t].answer(kind) {
        Ok(value) => Ok(value),
        Err(_) => Err(Stop::World(t as u8)),
    }
}

// Thread t, which asks so, takes a step with this result.
pub fn go(flat: &mut Flat<'_>, t: usize, asked: Ask, value: u32)
    requires thread { t < length flat.old.threads }
    requires asked { asked ≡ ask_of flat.old.code (thread_of flat.old t) }
    requires can { Can (machine flat.old) (tables flat.old) (t, value) }
    requires no_try { IsNoTry asked }
    ensures { Moved t value flat.old flat.new }
{
    let _ = flat.take(t, asked, value);
}

// Thread t, which tries to enter an object, does if it can, and else continues without.
pub fn enter_or_pass(flat: &mut Flat<'_>, t: usize, asked: Ask) -> u32
    requires thread { t < length flat.old.threads }
    requires asked { asked ≡ ask_of flat.old.code (thread_of flat.old t) }
    requires can { Can (machine flat.old) (tables flat.old) (t, 0) }
    ensures { Moved t result flat.old flat.new }
{
    if flat.take(t, asked, 1).is_ok() {
        return 1;
    }
    let _ = flat.take(t, asked, 0);
    0
}
