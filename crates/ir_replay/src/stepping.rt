//! Steps of one thread towards its target.

ghost use Rattle.std.specs.Prelude.{◌≡◌, ◌<◌, ◌≤◌, ◌-◌, true, false, length};
ghost use Rattle.ir_thread.specs.State.{ask_of};
ghost use Rattle.ir_flat.specs.Flat.{thread_of};
ghost use Rattle.ir_cut.specs.Positions.{cut_of};
ghost use Rattle.ir_weave.specs.Standing.{positions};
ghost use Rattle.ir_weave.specs.Stepping.{IsTarget, IsUnder, HasGone, IsSameSeat, RestsAtTarget};

use crate::admission::next_result;
use crate::telling::{tell_entry, tell_leave};
use ir_fit::Fitted;
use ir_flat::Flat;
use ir_object::Gate;
use ir_thread::Ask;

// How many steps thread t has to its target.
pub fn left(target: &[u64], flat: &Flat<'_>, t: usize) -> u64
    requires target { t < length target.now }
    requires thread { t < length flat.now.threads }
    ensures { result ≡ cut_of target.now t - positions flat.now t }
{
    target[t].saturating_sub(flat.threads()[t].steps())
}

// Thread t takes its next step, for which it asks so, where it is below its target and the step is admitted. Whether it
// took one.
#[inline(always)]
fn take_if_admitted<G: Gate>(
    fitted: &Fitted,
    target: &[u64],
    flat: &mut Flat<'_>,
    t: usize,
    asked: Ask,
    gate: &G,
) -> bool
    requires target { IsTarget fitted.now target.now }
    requires under { IsUnder fitted.now target.now flat.old }
    requires thread { t < length target.now }
    requires asked { asked ≡ ask_of flat.old.code (thread_of flat.old t) }
    ensures under { IsUnder fitted.now target.now flat.new }
    ensures gone { result ≡ true → HasGone flat.old flat.new t 1 }
    ensures same { result ≡ false → IsSameSeat flat.old flat.new }
    ensures rests { result ≡ false → RestsAtTarget fitted.now target.now flat.new t }
{
    if left(target, flat, t) == 0 {
        return false;
    }
    match next_result(fitted, flat, t, asked) {
        None => false,
        Some(result) => {
            let number = flat.threads()[t].number();
            tell_leave(gate, number, asked);
            let taken = flat.take(t, asked, result).is_ok();
            tell_entry(gate, &flat.threads()[t], asked);
            taken
        }
    }
}

// The same, with a case for each frequent ask. Where it is known which ask it is, the compiler leaves out the tests of it.
fn step_asked<G: Gate>(
    fitted: &Fitted,
    target: &[u64],
    flat: &mut Flat<'_>,
    t: usize,
    asked: Ask,
    gate: &G,
) -> bool
    requires target { IsTarget fitted.now target.now }
    requires under { IsUnder fitted.now target.now flat.old }
    requires thread { t < length target.now }
    requires asked { asked ≡ ask_of flat.old.code (thread_of flat.old t) }
    ensures under { IsUnder fitted.now target.now flat.new }
    ensures gone { result ≡ true → HasGone flat.old flat.new t 1 }
    ensures same { result ≡ false → IsSameSeat flat.old flat.new }
    ensures rests { result ≡ false → RestsAtTarget fitted.now target.now flat.new t }
{
    match asked {
        Ask::Enter(object, access) => {
            take_if_admitted(fitted, target, flat, t, Ask::Enter(object, access), gate)
        }
        Ask::Leave(object, access) => {
            take_if_admitted(fitted, target, flat, t, Ask::Leave(object, access), gate)
        }
        Ask::Get(object, index) => {
            take_if_admitted(fitted, target, flat, t, Ask::Get(object, index), gate)
        }
        Ask::Put(object, index, value) => {
            take_if_admitted(
                fitted,
                target,
                flat,
                t,
                Ask::Put(object, index, value),
                gate,
            )
        }
        _ => take_if_admitted(fitted, target, flat, t, asked, gate),
    }
}

// Thread t takes its next step, where it is below its target and the step is admitted. Whether it took one.
pub fn step<G: Gate>(
    fitted: &Fitted,
    target: &[u64],
    flat: &mut Flat<'_>,
    t: usize,
    gate: &G,
) -> bool
    requires target { IsTarget fitted.now target.now }
    requires under { IsUnder fitted.now target.now flat.old }
    requires thread { t < length target.now }
    ensures under { IsUnder fitted.now target.now flat.new }
    ensures gone { result ≡ true → HasGone flat.old flat.new t 1 }
    ensures same { result ≡ false → IsSameSeat flat.old flat.new }
    ensures rests { result ≡ false → RestsAtTarget fitted.now target.now flat.new t }
{
    let asked = flat.ask(t);
    step_asked(fitted, target, flat, t, asked, gate)
}

// Thread t advances until it has taken `most` steps, is at its target, or its next step isn't admitted. How many it took.
pub fn go<G: Gate>(
    fitted: &Fitted,
    target: &[u64],
    flat: &mut Flat<'_>,
    t: usize,
    most: u64,
    gate: &G,
) -> u64
    requires target { IsTarget fitted.now target.now }
    requires under { IsUnder fitted.now target.now flat.old }
    requires thread { t < length target.now }
    ensures under { IsUnder fitted.now target.now flat.new }
    ensures within { result ≤ most }
    ensures gone { HasGone flat.old flat.new t result }
    ensures rests { result < most → RestsAtTarget fitted.now target.now flat.new t }
{
    let mut taken = 0;
    'steps: while taken < most {
        let limit = left(target, flat, t).min(most - taken);
        let (more, asked) = flat.run_to_ask(t, limit);
        taken += more;
        if taken == most {
            return taken;
        }
        if !step_asked(fitted, target, flat, t, asked, gate) {
            return taken;
        }
        taken += 1;
    }
    taken
}
