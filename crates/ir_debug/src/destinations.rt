//! The cuts to which moves lead.

ghost use Rattle.std.specs.Prelude.{◌≡◌, ◌<◌, ◌≤◌, true, min, nat_lt, length, IfOk};
ghost use Rattle.ir_cut.specs.Positions.{EachRun, IsConsistentCut, threads_of, last_of};
ghost use Rattle.ir_debug.specs.Machine.{if_some, thread_named, Leads, StopsAt, stop_of};
ghost use Rattle.ir_debug.specs.Debugging.{ToPosition};
ghost use Rattle.ir_command.specs.declared.command.Command.TheVariants as command;

use ir_command::{Direction, Hit, Move};
use ir_cut::{Cut, greatest, least};
use ir_fit::Fitted;
use ir_timeline::{first_cut, last_cut, last_position};
use std::alloc::{AllocError, Global};

// The cut to which thread t is brought that goes to a position, or to its last.
fn to_position(
    alloc: Global,
    fitted: &Fitted,
    at: &Cut,
    t: usize,
    position: u64,
) -> Result<Cut, AllocError>
    requires cut { (length at.now ≡ threads_of fitted.now) × IsConsistentCut fitted.now at.now }
    requires thread { t < threads_of fitted.now }
    ensures leads { IfOk result (λ c. EachRun fitted.now (λ run. ToPosition run fitted.now at.now t (min position (last_of fitted.now t)) c)) }
    ensures size { IfOk result (λ c. length c ≡ threads_of fitted.now) }
    ensures consistent { IfOk result (λ c. IsConsistentCut fitted.now c) }
{
    let position = position.min(last_position(fitted, t));
    if at.position(t) <= position {
        least(alloc, fitted, at, t, position)
    } else {
        greatest(alloc, fitted, at, t, position)
    }
}

/// The cut to which a move leads from this one. The thread that it names is there.
///
/// # Errors
/// Out of memory.
pub fn destination(alloc: Global, fitted: &Fitted, at: &Cut, to: Move) -> Result<Cut, AllocError>
    requires cut { (length at.now ≡ threads_of fitted.now) × IsConsistentCut fitted.now at.now }
    requires thread { if_some (thread_named (command.Move to)) (λ t. nat_lt t (threads_of fitted.now)) ≡ true }
    ensures leads { IfOk result (λ c. EachRun fitted.now (λ run. Leads run fitted.now at.now to c)) }
    ensures size { IfOk result (λ c. length c ≡ threads_of fitted.now) }
    ensures consistent { IfOk result (λ c. IsConsistentCut fitted.now c) }
{
    match to {
        Move::Step { thread, count } => {
            let t = thread as usize;
            let position = at.position(t).saturating_add(count as u64);
            least(alloc, fitted, at, t, position.min(last_position(fitted, t)))
        }
        Move::Back { thread, count } => {
            let t = thread as usize;
            let position = at.position(t).saturating_sub(count as u64);
            greatest(alloc, fitted, at, t, position)
        }
        Move::Goto { thread, position } => {
            to_position(alloc, fitted, at, thread as usize, position)
        }
        Move::Start => first_cut(alloc, fitted),
        Move::End => last_cut(alloc, fitted),
    }
}

// Where a thread stops that is continued: at the hit; or at its last position, or at 0.
fn stop_of(fitted: &Fitted, t: usize, direction: Direction, hit: Option<Hit>) -> u64
    requires { t < threads_of fitted.now }
    ensures { result ≡ stop_of fitted.now t direction hit }
{
    match (hit, direction) {
        (Some(hit), _) => hit.position,
        (None, Direction::Forwards) => last_position(fitted, t),
        (None, Direction::Backwards) => 0,
    }
}

/// The cut at which all threads are, when one that moves in this direction is at a position: the least that isn't below this cut, or the
/// greatest that isn't above it.
///
/// # Errors
/// Out of memory.
pub fn stop_at(
    alloc: Global,
    fitted: &Fitted,
    at: &Cut,
    t: usize,
    direction: Direction,
    position: u64,
) -> Result<Cut, AllocError>
    requires cut { (length at.now ≡ threads_of fitted.now) × IsConsistentCut fitted.now at.now }
    requires thread { t < threads_of fitted.now }
    requires within { position ≤ last_of fitted.now t }
    ensures stops { IfOk result (λ c. EachRun fitted.now (λ run. StopsAt run fitted.now at.now t direction position c)) }
    ensures size { IfOk result (λ c. length c ≡ threads_of fitted.now) }
    ensures consistent { IfOk result (λ c. IsConsistentCut fitted.now c) }
{
    match direction {
        Direction::Forwards => least(alloc, fitted, at, t, position),
        Direction::Backwards => greatest(alloc, fitted, at, t, position),
    }
}

/// The cut at which all threads are, when the one that is continued in this direction stops at the hit.
///
/// # Errors
/// Out of memory.
pub fn stop(
    alloc: Global,
    fitted: &Fitted,
    at: &Cut,
    t: usize,
    direction: Direction,
    hit: Option<Hit>,
) -> Result<Cut, AllocError>
    requires cut { (length at.now ≡ threads_of fitted.now) × IsConsistentCut fitted.now at.now }
    requires thread { t < threads_of fitted.now }
    requires within { stop_of fitted.now t direction hit ≤ last_of fitted.now t }
    ensures stops { IfOk result (λ c. EachRun fitted.now (λ run. StopsAt run fitted.now at.now t direction (stop_of fitted.now t direction hit) c)) }
    ensures size { IfOk result (λ c. length c ≡ threads_of fitted.now) }
    ensures consistent { IfOk result (λ c. IsConsistentCut fitted.now c) }
{
    let position = stop_of(fitted, t, direction, hit);
    stop_at(alloc, fitted, at, t, direction, position)
}
