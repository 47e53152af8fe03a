//! Steps of all threads towards their targets, on the caller.

ghost use Rattle.std.specs.Prelude.{◌≡◌, ◌<◌, ◌≤◌, ℕ, length};
ghost use Rattle.ir_cut.specs.Positions.{cut_of};
ghost use Rattle.ir_weave.specs.Standing.{positions};
ghost use Rattle.ir_weave.specs.Stepping.{IsTarget, IsUnder, RestsAtTarget, steps_left};
ghost use Rattle.ir_replay.specs.Passes.{IsPass};

use crate::stepping::{go, step};
use crate::telling::tell_steps;
use ir_fit::Fitted;
use ir_flat::Flat;
use ir_object::{Gate, OpenGate};

// Each entry of the order takes a step of that thread, if there is such a thread and it has one.
pub fn follow(fitted: &Fitted, target: &[u64], flat: &mut Flat<'_>, order: &[u8])
    requires target { IsTarget fitted.now target.now }
    requires under { IsUnder fitted.now target.now flat.old }
    ensures { IsUnder fitted.now target.now flat.new }
{
    for thread in order {
        let t = *thread as usize;
        if t < target.len() {
            step(fitted, target, flat, t, &OpenGate);
        }
    }
}

// Each thread in turn advances as far as it can by itself, all together by at most `most` steps, of which the gate is told. How many they
// took.
fn pass<G: Gate>(fitted: &Fitted, target: &[u64], flat: &mut Flat<'_>, most: u64, gate: &G) -> u64
    requires target { IsTarget fitted.now target.now }
    requires under { IsUnder fitted.now target.now flat.old }
    ensures within { result ≤ most }
    ensures passed { IsPass fitted.now target.now flat.old flat.new result most (length target.now) }
{
    let mut taken = 0;
    for t in 0..target.len() {
        let more = go(fitted, target, flat, t, most - taken, gate);
        tell_steps(gate, &flat.threads()[t], more);
        taken += more;
    }
    taken
}

// Passes over the threads until all are at their targets.
pub fn finish(fitted: &Fitted, target: &[u64], flat: &mut Flat<'_>)
    requires target { IsTarget fitted.now target.now }
    requires under { IsUnder fitted.now target.now flat.old }
    ensures under { IsUnder fitted.now target.now flat.new }
    ensures reached { (t : ℕ) → positions flat.new t ≡ cut_of target.now t }
{
    'passes: while pass(fitted, target, flat, u64::MAX, &OpenGate) > 0 {}
}

// Passes over the threads until they have taken `most` steps or are at their targets.
pub fn go_on<G: Gate>(fitted: &Fitted, target: &[u64], flat: &mut Flat<'_>, most: u64, gate: &G)
    requires target { IsTarget fitted.now target.now }
    requires under { IsUnder fitted.now target.now flat.old }
    requires some { 0 < most }
    ensures under { IsUnder fitted.now target.now flat.new }
    ensures above { (t : ℕ) → positions flat.old t ≤ positions flat.new t }
    ensures goes { (t : ℕ) → positions flat.old t < cut_of target.now t → steps_left target.now flat.new < steps_left target.now flat.old }
{
    let mut left = most;
    'passes: while left > 0 {
        let taken = pass(fitted, target, flat, left, gate);
        if taken == 0 {
            return;
        }
        left -= taken;
    }
}
