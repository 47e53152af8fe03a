//! Cuts on the way to a target.

ghost use Rattle.std.specs.Prelude.{◌≡◌, ◌<◌, ◌≤◌, ℕ, length, map, IfOk};
ghost use Rattle.ir_cut.specs.Positions.{IsConsistentCut, cut_of};
ghost use Rattle.ir_weave.specs.Standing.{flat_in, positions};
ghost use Rattle.ir_moves.specs.Checkpoints.{StandsAtState};
ghost use Rattle.ir_moves.specs.Parts.{IsOnWay};

use ir_cut::{Cut, least};
use ir_fit::Fitted;
use ir_replay::State;
use ir_thread::Thread;
use std::alloc::{AllocError, Global};

// The positions of the threads.
fn own_cut(alloc: Global, threads: &[Thread]) -> Result<Cut, AllocError>
    ensures { IfOk result (λ c. c ≡ map (λ t. t.steps) threads.now) }
{
    let mut positions = Vec::with_capacity(alloc, threads.len())?;
    for thread in threads {
        positions.push(thread.steps())?;
    }
    Ok(Cut::new(positions))
}

// The end of the first of `pieces` pieces of the way between two positions.
fn first_piece(from: u64, to: u64, pieces: u64) -> u64
    requires some { 0 < pieces }
    requires order { from ≤ to }
    ensures { result ≤ to }
{
    from + (to - from) / pieces
}

// A cut at which each thread has gone its first piece, and what others need for theirs.
fn first_part(
    alloc: Global,
    fitted: &Fitted,
    from: &Cut,
    target: &Cut,
    pieces: u64,
) -> Result<Cut, AllocError>
    requires some { 0 < pieces }
    requires target { (length target.now ≡ length fitted.now.guest.entries) × IsConsistentCut fitted.now target.now }
    requires from { IsOnWay fitted.now (cut_of from.now) (cut_of target.now) from.now }
    ensures { IfOk result (λ c. IsOnWay fitted.now (cut_of from.now) (cut_of target.now) c) }
{
    fitted.known();
    let mut cut = from.copy()?;
    for t in 0..from.positions().len() {
        let position = first_piece(from.position(t), target.position(t), pieces);
        cut = least(alloc, fitted, &cut, t, position)?;
    }
    Ok(cut)
}

/// A consistent cut between the threads' own positions and the target, at which each thread has gone about one of `pieces` pieces of
/// its way.
///
/// # Errors
/// Out of memory.
pub fn part_of(
    alloc: Global,
    fitted: &Fitted,
    state: &State,
    target: &Cut,
    pieces: u64,
) -> Result<Cut, AllocError>
    requires some { 0 < pieces }
    requires stands { StandsAtState fitted.now state.now }
    requires target { (length target.now ≡ length fitted.now.guest.entries) × IsConsistentCut fitted.now target.now }
    requires below { (t : ℕ) → positions (flat_in fitted.now state.now) t ≤ cut_of target.now t }
    ensures { IfOk result (λ c. IsOnWay fitted.now (positions (flat_in fitted.now state.now)) (cut_of target.now) c) }
{
    let from = own_cut(alloc, state.threads())?;
    first_part(alloc, fitted, &from, target, pieces)
}
