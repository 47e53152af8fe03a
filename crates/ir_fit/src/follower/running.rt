//! A run that follows the trace as far as any can.

ghost use Rattle.std.specs.Prelude.{◌≡◌, ◌<◌, ℕ, true, length, IfSome, IfNone};
ghost use Rattle.ir_fit.specs.Ahead.{IsMove, IsStoppedAhead};
ghost use Rattle.ir_fit.specs.Follower.{all_ahead, FollowerGoesOn, IsFollower, IsSized};
ghost use Rattle.ir_fit.specs.Passed.{IsAlong, ArePassed};
ghost use Rattle.ir_flat.specs.Flat.{thread_of};
ghost use Rattle.ir_image.specs.Guest.{Guest};
ghost use Rattle.ir_thread.specs.State.{ask_of};

use crate::follower::Follower;
use crate::follower::look::{Look, Move};
use crate::follower::passing::Passing;
use crate::follower::readiness::Readiness;
use crate::stretch::Stretch;
use ir_object::{Gate, MOST_UNTOLD};
use ir_thread::Ask;

// How far a thread came: how many steps it took, and whether it continues.
#[derive(Clone, Copy)]
struct Advanced {
    taken: u64,
    more: bool,
}

impl Follower<'_> {
    // Thread t, which asks so, takes its next step, if that follows the trace; or else what is seen of it.
    #[tactic(auto, using(crate::proofs::Moves::goes_on_is_reflexive))]
    #[inline(always)]
    fn follow_asked(&mut self, t: usize, asked: Ask) -> Option<Look>
        requires sized { IsSized self.old }
        requires thread { t < length self.old.flat.threads }
        requires asked { asked ≡ ask_of self.old.flat.code (thread_of self.old.flat t) }
        ensures goes { FollowerGoesOn self.old.trace self.old.flat self.old.places.items self.new.flat self.new.places.items }
        ensures fewer { IfNone result (all_ahead self.new.trace self.new.flat < all_ahead self.old.trace self.old.flat) }
        ensures trace { self.new.trace ≡ self.old.trace }
        ensures sized { IsSized self.new }
    {
        match self.look_at(t, asked) {
            Look::Goes(next) => {
                self.take(next);
                None
            }
            look => Some(look),
        }
    }

    // The same, with a case for each frequent ask. Where it is known which ask it is, the compiler leaves out the tests of it.
    #[inline(always)]
    fn follow_ask(&mut self, t: usize, asked: Ask) -> Option<Look>
        requires sized { IsSized self.old }
        requires thread { t < length self.old.flat.threads }
        requires asked { asked ≡ ask_of self.old.flat.code (thread_of self.old.flat t) }
        ensures goes { FollowerGoesOn self.old.trace self.old.flat self.old.places.items self.new.flat self.new.places.items }
        ensures fewer { IfNone result (all_ahead self.new.trace self.new.flat < all_ahead self.old.trace self.old.flat) }
        ensures trace { self.new.trace ≡ self.old.trace }
        ensures sized { IsSized self.new }
    {
        match asked {
            Ask::Enter(object, access) => self.follow_asked(t, Ask::Enter(object, access)),
            Ask::Leave(object, access) => self.follow_asked(t, Ask::Leave(object, access)),
            Ask::Get(object, index) => self.follow_asked(t, Ask::Get(object, index)),
            Ask::Put(object, index, value) => self.follow_asked(t, Ask::Put(object, index, value)),
            _ => self.follow_asked(t, asked),
        }
    }

    // Thread t continues while its steps follow the trace, up to where it pauses, or until it has taken as many as a gate is told of at once. It
    // names no gate: so this loop is there once for all kinds of them, and the compiler puts into it what a step takes.
    fn advance_untold(&mut self, t: usize, pause: u64) -> Advanced
        requires sized { IsSized self.old }
        requires thread { t < length self.old.flat.threads }
        ensures goes { FollowerGoesOn self.old.trace self.old.flat self.old.places.items self.new.flat self.new.places.items }
        ensures fewer { result.more ≡ true → all_ahead self.new.trace self.new.flat < all_ahead self.old.trace self.old.flat }
        ensures trace { self.new.trace ≡ self.old.trace }
        ensures sized { IsSized self.new }
    {
        let mut taken = 0u64;
        'steps: loop {
            let ahead = self.steps_left(t);
            let limit = self.step_limit(t, ahead, pause);
            let (steps, asked) = self.flat.run_to_ask(t, limit);
            // With the step that it takes then.
            taken = taken.saturating_add(steps).saturating_add(1);
            if let Some(look) = self.follow_ask(t, asked) {
                self.note(t, look);
                return Advanced { taken, more: false };
            }
            if self.thread(t).steps() >= pause {
                self.pause(t);
                return Advanced { taken, more: false };
            }
            if taken >= MOST_UNTOLD {
                return Advanced { taken, more: true };
            }
        }
    }

    // Thread t continues while its steps follow the trace, up to where it pauses. The gate is told of its steps now and then.
    pub fn advance<G: Gate>(&mut self, t: usize, pause: u64, gate: &G)
        requires sized { IsSized self.old }
        requires thread { t < length self.old.flat.threads }
        ensures goes { FollowerGoesOn self.old.trace self.old.flat self.old.places.items self.new.flat self.new.places.items }
        ensures trace { self.new.trace ≡ self.old.trace }
        ensures sized { IsSized self.new }
    {
        let number = self.flat.threads()[t].number();
        'told: loop {
            let Advanced { taken, more } = self.advance_untold(t, pause);
            gate.stepped(number, taken);
            if !more {
                return;
            }
        }
    }

    // The step of a thread that is ready, if one of these has a step that follows. Those that have none aren't ready any more.
    fn ready_step(&mut self) -> Option<Move>
        requires { IsSized self.old }
        ensures flat { self.new.flat ≡ self.old.flat }
        ensures places { self.new.places.items ≡ self.old.places.items }
        ensures trace { self.new.trace ≡ self.old.trace }
        ensures sized { IsSized self.new }
        ensures follows { IfSome result (λ next. IsMove self.old.trace self.old.flat next) }
    {
        for t in 0..self.ready.len() {
            if self.ready[t] == Readiness::Ready {
                let look = self.look(t);
                if let Look::Goes(next) = look {
                    return Some(next);
                }
                self.note(t, look);
            }
        }
        None
    }

    // The first thread's step that follows, where every thread is looked at again.
    fn last_look(&self) -> Option<Move>
        requires { IsSized self.now }
        ensures follows { IfSome result (λ next. IsMove self.now.trace self.now.flat next) }
        ensures none { IfNone result ((t : ℕ) → t < length self.now.flat.threads → IsStoppedAhead self.now.trace self.now.flat t) }
    {
        for t in 0..self.ready.len() {
            if let Look::Goes(next) = self.look(t) {
                return Some(next);
            }
        }
        None
    }

    // A step that follows the trace, of a thread that is ready before others, and of one that paused where none is ready. That there is
    // none rests on a last look at each thread, and not on what is known of those that wait.
    fn next(&mut self, passing: &mut Passing) -> Option<Move>
        requires { IsSized self.old }
        ensures flat { self.new.flat ≡ self.old.flat }
        ensures places { self.new.places.items ≡ self.old.places.items }
        ensures trace { self.new.trace ≡ self.old.trace }
        ensures sized { IsSized self.new }
        ensures follows { IfSome result (λ next. IsMove self.old.trace self.old.flat next) }
        ensures none { IfNone result ((t : ℕ) → t < length self.old.flat.threads → IsStoppedAhead self.old.trace self.old.flat t) }
        ensures passed { (guest : Guest) → IsAlong guest self.old.trace self.old.flat
            → ArePassed guest self.old.trace passing.old.states.items → ArePassed guest self.old.trace passing.new.states.items }
    {
        if let Some(next) = self.ready_step() {
            return Some(next);
        }
        self.pass(passing);
        match self.ready_step() {
            Some(next) => Some(next),
            None => self.last_look(),
        }
    }

    // Notes how far thread t is, which took the last steps. If memory runs out it isn't noted.
    fn note_stretch(&mut self, t: usize)
        requires sized { IsSized self.old }
        requires thread { t < length self.old.flat.threads }
        ensures flat { self.new.flat ≡ self.old.flat }
        ensures trace { self.new.trace ≡ self.old.trace }
        ensures places { self.new.places.items ≡ self.old.places.items }
        ensures sized { IsSized self.new }
    {
        let leaves = self.places[t].leave_count().min(u32::MAX as usize);
        let thread = self.thread(t).number();
        let events = self.thread(t).events();
        let _ = self.stretches.push(Stretch {
            events,
            leaves: leaves as u32,
            thread,
        });
    }

    // Continues while any thread has a step that follows, and keeps states on the way.
    pub fn follow<G: Gate>(&mut self, passing: &mut Passing, gate: &G)
        requires { IsSized self.old }
        ensures goes { FollowerGoesOn self.old.trace self.old.flat self.old.places.items self.new.flat self.new.places.items }
        ensures trace { self.new.trace ≡ self.old.trace }
        ensures sized { IsSized self.new }
        ensures stopped { (t : ℕ) → t < length self.new.flat.threads → IsStoppedAhead self.new.trace self.new.flat t }
        ensures passed { (guest : Guest) → IsFollower guest self.old.trace self.old.flat self.old.places.items
            → ArePassed guest self.old.trace passing.old.states.items → ArePassed guest self.old.trace passing.new.states.items }
    {
        'moves: while let Some(next) = self.next(passing) {
            self.take(next);
            self.advance(next.thread, passing.pause_of(next.thread), gate);
            self.note_stretch(next.thread);
        }
    }
}
