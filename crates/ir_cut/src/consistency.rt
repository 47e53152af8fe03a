//! Whether a cut is consistent.

ghost use Rattle.std.specs.Prelude.{◌≡◌, ◌<◌, ◌≤◌, ℕ, length, IsTrue, ◌↔◌};
ghost use Rattle.ir_trace.specs.Recorded.{recorded_thread};
ghost use Rattle.ir_cut.specs.Positions.{EachRun, IsConsistentCut, cut_of};
ghost use Rattle.ir_fit.specs.Within.{IsFitted};
ghost use Rattle.ir_cut.specs.Searching.{IsClosedCut};

use crate::cut::Cut;
use crate::logs::{log_of, steps_of};
use crate::needs::are_met;
use ir_fit::Fitted;

// Whether what the steps of thread t in the cut need is in it.
fn is_closed(fitted: &Fitted, positions: &[u64], t: usize) -> bool
    requires fitted { IsFitted fitted.now }
    requires size { length positions.now ≡ length fitted.now.guest.entries }
    requires thread { t < length fitted.now.guest.entries }
    ensures { IsTrue result ↔ EachRun fitted.now (λ run. IsClosedCut fitted.now run (cut_of positions.now) t) }
{
    let events = log_of(fitted, t);
    let places = fitted.entries(t);
    for i in 0..places.len() {
        if places[i] >= positions[t] {
            return true;
        }
        if !are_met(fitted, positions, events[i]) {
            return false;
        }
    }
    true
}

// Whether thread t isn't past its last step, and what its steps in the cut need is in it.
fn is_within(fitted: &Fitted, positions: &[u64], t: usize) -> bool
    requires fitted { IsFitted fitted.now }
    requires size { length positions.now ≡ length fitted.now.guest.entries }
    requires thread { t < length fitted.now.guest.entries }
    ensures { IsTrue result ↔ (cut_of positions.now t ≤ (recorded_thread fitted.now.recorded t).steps) × EachRun fitted.now (λ run. IsClosedCut fitted.now run (cut_of positions.now) t) }
{
    positions[t] <= steps_of(fitted, t) && is_closed(fitted, positions, t)
}

// Whether all threads are so.
fn are_within(fitted: &Fitted, positions: &[u64]) -> bool
    requires fitted { IsFitted fitted.now }
    requires size { length positions.now ≡ length fitted.now.guest.entries }
    ensures { IsTrue result ↔ IsConsistentCut fitted.now positions.now }
{
    for t in 0..positions.len() {
        if !is_within(fitted, positions, t) {
            return false;
        }
    }
    true
}

/// Whether the cut is consistent: no thread is past its last step, and for each entry in it, the leave that made its
/// version is in it too. For an entry for writing, so is each leave after reading at its version. Takes no memory, and time
/// linear in the entries of the cut and the leaves that they need.
pub fn consistent(fitted: &Fitted, cut: &Cut) -> bool
    requires { length cut.now ≡ length fitted.now.guest.entries }
    ensures { IsTrue result ↔ IsConsistentCut fitted.now cut.now }
{
    fitted.known();
    are_within(fitted, cut.positions())
}
