//! States that are kept for moves to begin at.

ghost use Rattle.std.specs.Prelude.{◌≡◌, ◌<◌, ◌≤◌, ℕ, length, IfOk, IfErr, OnOk, IsOk};
ghost use Rattle.ir_cut.specs.Positions.{IsConsistentCut, cut_of};
ghost use Rattle.ir_checkpoint.specs.Keeping.{IsNearest};
ghost use Rattle.ir_weave.specs.Standing.{StandsAtCut, flat_in, positions};
ghost use Rattle.ir_moves.specs.Checkpoints as checkpoints;
ghost use Rattle.ir_moves.specs.Checkpoints.{AllStandAtStates, StandsAtState};
ghost use Rattle.ir_moves.specs.Below.{IsBelowState};

use crate::below::{is_further, last_below, restore_found};
use crate::bringing::{gap_of, is_past, is_there, next_stop, steps_before, steps_of};
use crate::passed::{MOST_PASSED, Passed, PassedCut};
use ir_checkpoint::{KeepErr, Keeper, MOST_CHECKPOINTS};
use ir_cut::Cut;
use ir_fit::Fitted;
use ir_object::Hands;
use ir_replay::{Pace, State, advance};
use std::alloc::{AllocError, Global};
use std::marker::Model;
use std::mem;

// The most stops of one move.
const MOST_STOPS: usize = 64;

/// States of one replay that are kept for moves to begin at: the start, at most 64 that were asked for, and at most 64 that moves have
/// passed, which are given up again as moves pass others. In clauses what two keepers keep.
#[derive(Drop)]
pub struct Checkpoints {
    asked: Keeper,
    passed: Keeper,
    // The numbers of those that moves have passed, and where they lie.
    places: Passed,
}

impl Model for Checkpoints {
    ghost Value = { checkpoints.Checkpoints };

    ghost view = { λ c. record { asked = c.asked; passed = c.passed } };
}

// Keeps a state, and answers its number. None where 64 are kept beside the start, or all numbers were given.
fn keep_in(fitted: &Fitted, keeper: &mut Keeper, state: &State) -> Result<Option<u32>, AllocError>
    requires kept { AllStandAtStates fitted.now keeper.old.kept }
    requires stands { StandsAtState fitted.now state.now }
    ensures { AllStandAtStates fitted.now keeper.new.kept }
{
    if keeper.last() == u32::MAX {
        return Ok(None);
    }
    match keeper.keep(state) {
        Ok(number) => Ok(Some(number)),
        Err(KeepErr::Full) => Ok(None),
        Err(KeepErr::NoMem) => Err(AllocError),
    }
}

// Gives up the state kept as this number, if it is kept, and isn't the start.
fn drop_in(fitted: &Fitted, keeper: &mut Keeper, number: u32)
    requires { AllStandAtStates fitted.now keeper.old.kept }
    ensures { AllStandAtStates fitted.now keeper.new.kept }
{
    if number != 0 && keeper.cut(number).is_some() {
        keeper.drop_kept(number);
    }
}

// Whether a state is kept as this number at a cut.
fn is_at(keeper: &Keeper, number: u32, cut: &Cut) -> bool {
    match keeper.cut(number) {
        None => false,
        Some(own) => own.positions() == cut.positions(),
    }
}

// The greatest number of a state that is kept at a cut, but for the start's.
fn last_at(keeper: &Keeper, cut: &Cut) -> Option<u32> {
    for place in 0..MOST_CHECKPOINTS {
        let number = keeper.number_at(place)?;
        if number != 0 && is_at(keeper, number, cut) {
            return Some(number);
        }
    }
    None
}

// The number of the nearest state at or below the target.
fn nearest_in(fitted: &Fitted, keeper: &Keeper, target: &Cut) -> u32
    requires kept { AllStandAtStates fitted.now keeper.now.kept }
    requires target { length target.now ≡ length fitted.now.guest.entries }
    ensures { IsNearest target.now keeper.now result }
{
    keeper.nearest(target)
}

// How many steps are before the state kept as this number.
fn steps_in(keeper: &Keeper, number: u32) -> u64 {
    match keeper.cut(number) {
        None => 0,
        Some(cut) => steps_before(cut),
    }
}

// The nearest state at or below the target.
fn restore_in(
    fitted: &Fitted,
    keeper: &Keeper,
    number: u32,
    target: &Cut,
) -> Result<State, AllocError>
    requires kept { AllStandAtStates fitted.now keeper.now.kept }
    requires nearest { IsNearest target.now keeper.now number }
    ensures stands { IfOk result (λ s. StandsAtState fitted.now s) }
    ensures below { IfOk result (λ s. (t : ℕ) → positions (flat_in fitted.now s) t ≤ cut_of target.now t) }
{
    keeper.restore(number)
}

impl Checkpoints {
    ghost use Rattle.ir_moves.specs.Checkpoints.{AreCheckpoints};

    /// The start alone.
    ///
    /// # Errors
    /// Out of memory.
    pub fn new(alloc: Global, fitted: &Fitted) -> Result<Checkpoints, AllocError>
        ensures { IfOk result (λ c. AreCheckpoints fitted.now c) }
    {
        Ok(Checkpoints {
            asked: Keeper::new(alloc, fitted)?,
            passed: Keeper::new(alloc, fitted)?,
            places: Passed::new(),
        })
    }

    /// The states that were asked for.
    pub fn asked(&self) -> &Keeper
        ensures { result.now ≡ self.now.asked }
    {
        &self.asked
    }

    /// The states that moves have passed.
    pub fn passed(&self) -> &Keeper
        ensures { result.now ≡ self.now.passed }
    {
        &self.passed
    }

    /// Gives up all states that moves have passed, and their memory. Whether there were any.
    pub fn give_up_all(&mut self, fitted: &Fitted) -> bool
        requires { AreCheckpoints fitted.now self.old }
        ensures { AreCheckpoints fitted.now self.new }
    {
        let were_any = !self.places.is_empty();
        'each: for _ in 0..MOST_PASSED {
            if let Some(gone) = self.places.take_last() {
                drop_in(fitted, &mut self.passed, gone.number);
            }
        }
        were_any
    }

    /// Keeps a state. Where 64 are kept beside the start, or all numbers of the keeper were given, it isn't kept. Where memory runs out
    /// those that moves have passed are given up, and it is tried again.
    ///
    /// # Errors
    /// Out of memory; the states that were asked for stay.
    pub fn keep(&mut self, fitted: &Fitted, state: &State) -> Result<(), AllocError>
        requires checkpoints { AreCheckpoints fitted.now self.old }
        requires stands { StandsAtState fitted.now state.now }
        ensures { AreCheckpoints fitted.now self.new }
    {
        if let Err(AllocError) = keep_in(fitted, &mut self.asked, state) {
            if !self.give_up_all(fitted) {
                return Err(AllocError);
            }
            keep_in(fitted, &mut self.asked, state)?;
        }
        Ok(())
    }

    /// Gives up a state that was asked for at this cut, if there is one that isn't the start; of several the last that was kept.
    pub fn drop_kept(&mut self, fitted: &Fitted, cut: &Cut)
        requires { AreCheckpoints fitted.now self.old }
        ensures { AreCheckpoints fitted.now self.new }
    {
        if let Some(number) = last_at(&self.asked, cut) {
            drop_in(fitted, &mut self.asked, number);
        }
    }

    // How many steps are before the nearest state at or below the target.
    fn steps_kept(&self, fitted: &Fitted, target: &Cut) -> u64
        requires checkpoints { AreCheckpoints fitted.now self.now }
        requires target { length target.now ≡ length fitted.now.guest.entries }
    {
        let asked = steps_in(&self.asked, nearest_in(fitted, &self.asked, target));
        let passed = steps_in(&self.passed, nearest_in(fitted, &self.passed, target));
        asked.max(passed)
    }

    // The nearest state at or below the target.
    fn nearest(&self, fitted: &Fitted, target: &Cut) -> Result<State, AllocError>
        requires checkpoints { AreCheckpoints fitted.now self.now }
        requires target { length target.now ≡ length fitted.now.guest.entries }
        ensures stands { IfOk result (λ s. StandsAtState fitted.now s) }
        ensures below { IfOk result (λ s. (t : ℕ) → positions (flat_in fitted.now s) t ≤ cut_of target.now t) }
    {
        let asked = nearest_in(fitted, &self.asked, target);
        let passed = nearest_in(fitted, &self.passed, target);
        if steps_in(&self.passed, passed) > steps_in(&self.asked, asked) {
            restore_in(fitted, &self.passed, passed, target)
        } else {
            restore_in(fitted, &self.asked, asked, target)
        }
    }

    // That state, or where memory runs out the nearest that was asked for.
    fn restore(&mut self, fitted: &Fitted, target: &Cut) -> Result<State, AllocError>
        requires checkpoints { AreCheckpoints fitted.now self.old }
        requires target { length target.now ≡ length fitted.now.guest.entries }
        ensures checkpoints { AreCheckpoints fitted.now self.new }
        ensures stands { IfOk result (λ s. StandsAtState fitted.now s) }
        ensures below { IfOk result (λ s. (t : ℕ) → positions (flat_in fitted.now s) t ≤ cut_of target.now t) }
    {
        if let Ok(state) = self.nearest(fitted, target) {
            return Ok(state);
        }
        if !self.give_up_all(fitted) {
            return Err(AllocError);
        }
        self.nearest(fitted, target)
    }

    // A state in which thread t is below a position, the one with the most steps of it; the start, if there is none.
    fn last_before(
        &self,
        alloc: Global,
        fitted: &Fitted,
        t: usize,
        position: u64,
    ) -> Result<State, AllocError>
        requires checkpoints { AreCheckpoints fitted.now self.now }
        requires thread { t < length fitted.now.guest.entries }
        ensures stands { IfOk result (λ s. StandsAtState fitted.now s) }
        ensures before { IfOk result (IsBelowState fitted.now t position) }
    {
        let asked = last_below(fitted, &self.asked, t, position);
        if let Some(passed) = last_below(fitted, &self.passed, t, position) {
            if is_further(asked, passed) {
                return restore_found(fitted, &self.passed, t, position, passed);
            }
        }
        match asked {
            Some(asked) => restore_found(fitted, &self.asked, t, position, asked),
            None => State::start(alloc, fitted),
        }
    }

    /// A state in which thread t is below a position: of all that are kept the one with the most steps of thread t, and the start
    /// if there is none. If memory runs out, the states that moves have passed are given up, and it is tried again.
    ///
    /// # Errors
    /// Out of memory.
    pub fn restore_before(
        &mut self,
        alloc: Global,
        fitted: &Fitted,
        t: usize,
        position: u64,
    ) -> Result<State, AllocError>
        requires checkpoints { AreCheckpoints fitted.now self.old }
        requires thread { t < length fitted.now.guest.entries }
        ensures checkpoints { AreCheckpoints fitted.now self.new }
        ensures stands { IfOk result (λ s. StandsAtState fitted.now s) }
        ensures before { IfOk result (IsBelowState fitted.now t position) }
    {
        if let Ok(state) = self.last_before(alloc, fitted, t, position) {
            return Ok(state);
        }
        if !self.give_up_all(fitted) {
            return Err(AllocError);
        }
        self.last_before(alloc, fitted, t, position)
    }

    // Gives up the state that moves have passed which is missed the least, seen from `present` steps.
    fn give_up(&mut self, fitted: &Fitted, present: u64)
        requires { AreCheckpoints fitted.now self.old }
        ensures { AreCheckpoints fitted.now self.new }
    {
        if let Some(gone) = self.places.give_up(present) {
            drop_in(fitted, &mut self.passed, gone.number);
        }
    }

    // Keeps a state that a move passes, in place of another where there are 64; whether it is kept.
    fn note(&mut self, fitted: &Fitted, state: &State, present: u64) -> bool
        requires checkpoints { AreCheckpoints fitted.now self.old }
        requires stands { StandsAtState fitted.now state.now }
        ensures { AreCheckpoints fitted.now self.new }
    {
        if self.places.is_full() {
            self.give_up(fitted, present);
        }
        match keep_in(fitted, &mut self.passed, state) {
            Ok(Some(number)) => {
                let steps = steps_of(state.threads());
                self.places.add(PassedCut { number, steps });
                true
            }
            _ => false,
        }
    }

    /// Keeps a state that a search passes, as moves keep those that they pass. Where memory runs out it isn't kept.
    pub fn pass(&mut self, fitted: &Fitted, state: &State)
        requires checkpoints { AreCheckpoints fitted.now self.old }
        requires stands { StandsAtState fitted.now state.now }
        ensures { AreCheckpoints fitted.now self.new }
    {
        self.note(fitted, state, steps_of(state.threads()));
    }

    // Advances towards the target, which no thread is past, until it is near or memory runs out, and keeps states on the way.
    fn approach<H: Hands>(
        &mut self,
        hands: &H,
        fitted: &Fitted,
        state: State,
        target: &Cut,
        pace: &mut Pace,
    ) -> State
        requires checkpoints { AreCheckpoints fitted.now self.old }
        requires stands { StandsAtState fitted.now state }
        requires target { (length target.now ≡ length fitted.now.guest.entries) × IsConsistentCut fitted.now target.now }
        requires below { (t : ℕ) → positions (flat_in fitted.now state) t ≤ cut_of target.now t }
        ensures checkpoints { AreCheckpoints fitted.now self.new }
        ensures stands { StandsAtState fitted.now result }
        ensures below { (t : ℕ) → positions (flat_in fitted.now result) t ≤ cut_of target.now t }
    {
        let mut state = state;
        let present = steps_before(target);
        let gap = gap_of(present.saturating_sub(steps_of(state.threads())));
        'stops: for _ in 0..MOST_STOPS {
            let Some(stop) = next_stop(hands.alloc(), fitted, &state, target, gap) else {
                return state;
            };
            match advance(hands, fitted, state, &stop, pace) {
                Ok(there) => state = there,
                Err((between, AllocError)) => return between,
            }
            if !self.note(fitted, &state, present) {
                return state;
            }
        }
        state
    }

    // Advances to the target, which no thread is past. If memory runs out, the states that moves have passed are given up, and it
    // continues.
    fn forward<H: Hands>(
        &mut self,
        hands: &H,
        fitted: &Fitted,
        state: State,
        target: &Cut,
    ) -> Result<State, (State, AllocError)>
        requires checkpoints { AreCheckpoints fitted.now self.old }
        requires stands { StandsAtState fitted.now state }
        requires target { (length target.now ≡ length fitted.now.guest.entries) × IsConsistentCut fitted.now target.now }
        requires below { (t : ℕ) → positions (flat_in fitted.now state) t ≤ cut_of target.now t }
        ensures checkpoints { AreCheckpoints fitted.now self.new }
        ensures ok { IfOk result (λ s. StandsAtCut fitted.now (cut_of target.now) s) }
        ensures err { IfErr result (λ e. StandsAtState fitted.now e.0) }
    {
        let steps = steps_before(target).saturating_sub(steps_of(state.threads()));
        let mut pace = Pace::of_move(steps);
        let near = self.approach(hands, fitted, state, target, &mut pace);
        match advance(hands, fitted, near, target, &mut pace) {
            Ok(there) => Ok(there),
            Err((between, error)) => {
                if !self.give_up_all(fitted) {
                    return Err((between, error));
                }
                advance(hands, fitted, between, target, &mut pace)
            }
        }
    }

    /// Brings threads and objects to the target: by `advance`, from where they are, or from the kept state at or below the target with
    /// the most steps before it, if that is nearer or a thread is past its target. On a long way it keeps states that it passes: of
    /// those that are the fewest steps apart, as seen from the target, one is given up when there are 64. If memory runs out for one
    /// of these, the move continues without it; if it runs out for the move itself, they are all given up, and it continues. If
    /// threads and objects are already at the target, it takes no memory and succeeds.
    ///
    /// # Errors
    /// Out of memory, with the threads and objects at some consistent cut.
    pub fn bring<H: Hands>(
        &mut self,
        hands: &H,
        fitted: &Fitted,
        state: &mut State,
        target: &Cut,
    ) -> Result<(), AllocError>
        requires checkpoints { AreCheckpoints fitted.now self.old }
        requires stands { StandsAtState fitted.now state.old }
        requires target { (length target.now ≡ length fitted.now.guest.entries) × IsConsistentCut fitted.now target.now }
        ensures checkpoints { AreCheckpoints fitted.now self.new }
        ensures stands { StandsAtState fitted.now state.new }
        ensures there { OnOk result (StandsAtCut fitted.now (cut_of target.now) state.new) }
        ensures already { StandsAtCut fitted.now (cut_of target.now) state.old → IsOk result }
    {
        if is_there(state.threads(), target) {
            return Ok(());
        }
        let is_nearer = self.steps_kept(fitted, target) > steps_of(state.threads());
        if is_nearer || is_past(state.threads(), target) {
            *state = self.restore(fitted, target)?;
        }
        let alloc = hands.alloc();
        let none = State::build(Vec::new(alloc), Vec::new(alloc));
        match self.forward(hands, fitted, mem::replace(state, none), target) {
            Ok(there) => {
                *state = there;
                Ok(())
            }
            Err((between, error)) => {
                *state = between;
                Err(error)
            }
        }
    }
}
