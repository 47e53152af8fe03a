//! Steps of a thread at its seat.

ghost use Rattle.std.specs.Prelude.{◌≡◌, ◌≢◌, ◌<◌, ◌≤◌, ◌↔◌, ◌⊎◌, true, false, length};
ghost use Rattle.ir_thread.specs.State.{ask_of};
ghost use Rattle.ir_thread.specs.declared.ask.Ask.TheVariants as ask;
ghost use Rattle.ir_thread.specs.declared.end.End.{End};
ghost use Rattle.ir_cut.specs.Positions.{cut_of};
ghost use Rattle.ir_weave.specs.Ahead.{IsAsking};
ghost use Rattle.ir_weave.specs.Woven.{IsFor, IsSeated, HasStepped, HasWaited, HasRunOn};
ghost use Rattle.ir_weave.specs.declared.stepping.Tried.TheVariants.{Stepped, NotNow, AtTarget};

use crate::weave::{Weave, WeaveSeat};
use ir_cut::Cut;
use ir_fit::Fitted;
use ir_log::Event;
use ir_runs::{Access, EnvKind};
use ir_thread::{Ask, Reply, Thread};

/// What came of a try to take a step.
#[derive(Clone, Copy, Debug, PartialEq, Eq)]
pub enum Tried {
    /// The thread took its next step.
    Stepped,
    /// The step wasn't admitted, or the thread is done.
    NotNow,
    /// The thread is at its target.
    AtTarget,
}

// A word of an object.
#[derive(Clone, Copy)]
struct WordAt {
    object: u8,
    index: u8,
}

impl Weave {
    // A step that touches no object and is answered no value.
    fn go(&self, seat: &WeaveSeat, thread: &mut Thread, fitted: &Fitted, asked: Ask)
        requires table { IsFor self.now.table.shared.key fitted.now }
        requires thread { IsSeated self.now.table.shared.key seat.now.me.0 thread.old }
        requires asking { IsAsking fitted.now thread.old asked }
        requires own { (asked ≡ ask.Private) ⊎ ((asked ≡ ask.Print) ⊎ ((e : End) × (asked ≡ ask.End e))) }
        ensures { HasStepped self.now.table.shared.key seat.now.me seat.now.me thread.old thread.new }
    {
        thread.take_asked(fitted.image().code(), asked, Reply::Go);
    }

    // A call of the environment, answered as the trace says.
    fn call(&self, seat: &WeaveSeat, thread: &mut Thread, fitted: &Fitted, kind: EnvKind)
        requires table { IsFor self.now.table.shared.key fitted.now }
        requires thread { IsSeated self.now.table.shared.key seat.now.me.0 thread.old }
        requires asking { IsAsking fitted.now thread.old (ask.Env kind) }
        ensures { HasStepped self.now.table.shared.key seat.now.me seat.now.me thread.old thread.new }
    {
        let number = thread.number() as usize;
        match fitted
            .trace()
            .next_event(number, thread.events(), Ask::Env(kind))
        {
            Ok(Event::Answer(_, value)) => {
                thread.take_asked(fitted.image().code(), Ask::Env(kind), Reply::Value(value));
            }
            Ok(_) => unreachable!(),
            Err(_) => unreachable!(),
        }
    }

    // An entry, if it is admitted. Whether it was taken.
    fn try_enter(
        &self,
        seat: &mut WeaveSeat,
        thread: &mut Thread,
        fitted: &Fitted,
        object: u8,
        access: Access,
    ) -> bool
        requires seat { seat.old.table_id ≡ self.now.table.shared.table_id }
        requires table { IsFor self.now.table.shared.key fitted.now }
        requires thread { IsSeated self.now.table.shared.key seat.old.me.0 thread.old }
        requires asking { IsAsking fitted.now thread.old (ask.Enter object access) }
        ensures seat { (seat.new.table_id ≡ seat.old.table_id) × (seat.new.id ≡ seat.old.id) }
        ensures stepped { result ≡ true → HasStepped self.now.table.shared.key seat.old.me seat.new.me thread.old thread.new }
        ensures stopped { result ≡ false → HasWaited self.now.table.shared.key seat.old.me seat.new.me thread.old thread.new }
    {
        let asked = Ask::Enter(object, access);
        let number = thread.number() as usize;
        match fitted.trace().next_event(number, thread.events(), asked) {
            Err(_) => unreachable!(),
            Ok(event) => {
                if !self.enter(seat, thread, object, access, event) {
                    return false;
                }
                thread.take_asked(fitted.image().code(), asked, Reply::Go);
                true
            }
        }
    }

    // A try, refused or an entry as the trace says; an entry if it is admitted. Whether it was taken.
    fn try_in(&self, seat: &mut WeaveSeat, thread: &mut Thread, fitted: &Fitted, object: u8) -> bool
        requires seat { seat.old.table_id ≡ self.now.table.shared.table_id }
        requires table { IsFor self.now.table.shared.key fitted.now }
        requires thread { IsSeated self.now.table.shared.key seat.old.me.0 thread.old }
        requires asking { IsAsking fitted.now thread.old (ask.Try object) }
        ensures seat { (seat.new.table_id ≡ seat.old.table_id) × (seat.new.id ≡ seat.old.id) }
        ensures stepped { result ≡ true → HasStepped self.now.table.shared.key seat.old.me seat.new.me thread.old thread.new }
        ensures stopped { result ≡ false → HasWaited self.now.table.shared.key seat.old.me seat.new.me thread.old thread.new }
    {
        let asked = Ask::Try(object);
        let number = thread.number() as usize;
        match fitted.trace().next_event(number, thread.events(), asked) {
            Err(_) => unreachable!(),
            Ok(event) => match event {
                Event::Try { .. } => {
                    thread.take_asked(fitted.image().code(), asked, Reply::Value(0));
                    true
                }
                _ => {
                    if !self.enter(seat, thread, object, Access::Writing, event) {
                        return false;
                    }
                    thread.take_asked(fitted.image().code(), asked, Reply::Value(1));
                    true
                }
            },
        }
    }

    // A leave.
    fn step_out(
        &self,
        seat: &mut WeaveSeat,
        thread: &mut Thread,
        fitted: &Fitted,
        object: u8,
        access: Access,
    )
        requires seat { seat.old.table_id ≡ self.now.table.shared.table_id }
        requires table { IsFor self.now.table.shared.key fitted.now }
        requires thread { IsSeated self.now.table.shared.key seat.old.me.0 thread.old }
        requires asking { IsAsking fitted.now thread.old (ask.Leave object access) }
        ensures seat { (seat.new.table_id ≡ seat.old.table_id) × (seat.new.id ≡ seat.old.id) }
        ensures stepped { HasStepped self.now.table.shared.key seat.old.me seat.new.me thread.old thread.new }
    {
        self.leave(seat, thread, object, access);
        thread.take_asked(fitted.image().code(), Ask::Leave(object, access), Reply::Go);
    }

    // A word that is read.
    fn read(&self, seat: &mut WeaveSeat, thread: &mut Thread, fitted: &Fitted, word: WordAt)
        requires seat { seat.old.table_id ≡ self.now.table.shared.table_id }
        requires table { IsFor self.now.table.shared.key fitted.now }
        requires thread { IsSeated self.now.table.shared.key seat.old.me.0 thread.old }
        requires asking { IsAsking fitted.now thread.old (ask.Get word.object word.index) }
        ensures seat { (seat.new.table_id ≡ seat.old.table_id) × (seat.new.id ≡ seat.old.id) }
        ensures stepped { HasStepped self.now.table.shared.key seat.old.me seat.new.me thread.old thread.new }
    {
        let value = self.get(seat, thread, word.object, word.index);
        thread.take_asked(
            fitted.image().code(),
            Ask::Get(word.object, word.index),
            Reply::Value(value),
        );
    }

    // A word that is written.
    fn write(
        &self,
        seat: &mut WeaveSeat,
        thread: &mut Thread,
        fitted: &Fitted,
        word: WordAt,
        value: u32,
    )
        requires seat { seat.old.table_id ≡ self.now.table.shared.table_id }
        requires table { IsFor self.now.table.shared.key fitted.now }
        requires thread { IsSeated self.now.table.shared.key seat.old.me.0 thread.old }
        requires asking { IsAsking fitted.now thread.old (ask.Put word.object word.index value) }
        ensures seat { (seat.new.table_id ≡ seat.old.table_id) × (seat.new.id ≡ seat.old.id) }
        ensures stepped { HasStepped self.now.table.shared.key seat.old.me seat.new.me thread.old thread.new }
    {
        self.put(seat, thread, word.object, word.index, value);
        thread.take_asked(
            fitted.image().code(),
            Ask::Put(word.object, word.index, value),
            Reply::Go,
        );
    }

    // The step that the thread asks, if it is admitted. Whether it was taken.
    fn take(&self, seat: &mut WeaveSeat, thread: &mut Thread, fitted: &Fitted, asked: Ask) -> bool
        requires seat { seat.old.table_id ≡ self.now.table.shared.table_id }
        requires table { IsFor self.now.table.shared.key fitted.now }
        requires thread { IsSeated self.now.table.shared.key seat.old.me.0 thread.old }
        requires asking { IsAsking fitted.now thread.old asked }
        ensures seat { (seat.new.table_id ≡ seat.old.table_id) × (seat.new.id ≡ seat.old.id) }
        ensures stepped { result ≡ true → HasStepped self.now.table.shared.key seat.old.me seat.new.me thread.old thread.new }
        ensures stopped { result ≡ false → HasWaited self.now.table.shared.key seat.old.me seat.new.me thread.old thread.new }
    {
        match asked {
            Ask::Private | Ask::Print | Ask::End(_) => self.go(seat, thread, fitted, asked),
            Ask::Env(kind) => self.call(seat, thread, fitted, kind),
            Ask::Enter(object, access) => {
                return self.try_enter(seat, thread, fitted, object, access);
            }
            Ask::Try(object) => return self.try_in(seat, thread, fitted, object),
            Ask::Leave(object, access) => self.step_out(seat, thread, fitted, object, access),
            Ask::Get(object, index) => {
                self.read(seat, thread, fitted, WordAt { object, index });
            }
            Ask::Put(object, index, value) => {
                self.write(seat, thread, fitted, WordAt { object, index }, value);
            }
            Ask::Done => unreachable!(),
        }
        true
    }

    /// Takes the thread's next step, for which it asks so, if it is below its target and the step is admitted. A thread
    /// that is done has no such step. Takes no memory, and waits for no thread.
    pub fn try_asked(
        &self,
        seat: &mut WeaveSeat,
        thread: &mut Thread,
        fitted: &Fitted,
        target: &Cut,
        asked: Ask,
    ) -> Tried
        requires seat { seat.old.table_id ≡ self.now.table.shared.table_id }
        requires table { IsFor self.now.table.shared.key fitted.now }
        requires thread { IsSeated self.now.table.shared.key seat.old.me.0 thread.old }
        requires target { length target.now ≡ length fitted.now.guest.entries }
        requires below { thread.old.steps ≤ cut_of target.now thread.old.number }
        requires asked { asked ≡ ask_of fitted.now.guest.code thread.old }

        ensures seat { (seat.new.table_id ≡ seat.old.table_id) × (seat.new.id ≡ seat.old.id) }
        // The thread has taken its next step of each run with the trace, and nothing but private steps part it from its
        // seat's view.
        ensures stepped { result ≡ Stepped → HasStepped self.now.table.shared.key seat.old.me seat.new.me thread.old thread.new }
        // The thread wasn't admitted at some consistent cut that its seat has met by a look in this call, at or above
        // the one that it had met before. If the thread is done, this is the end of each run.
        ensures stopped { result ≡ NotNow → HasWaited self.now.table.shared.key seat.old.me seat.new.me thread.old thread.new }
        ensures reached { result ≡ AtTarget → (thread.new ≡ thread.old) × (seat.new.me ≡ seat.old.me) }
        ensures target { (result ≡ AtTarget) ↔ (thread.old.steps ≡ cut_of target.now thread.old.number) }
    {
        if thread.steps() >= target.position(thread.number() as usize) {
            return Tried::AtTarget;
        }
        if matches!(asked, Ask::Done) {
            return Tried::NotNow;
        }
        if self.take(seat, thread, fitted, asked) {
            Tried::Stepped
        } else {
            Tried::NotNow
        }
    }

    /// Takes the thread's next step, if it is below its target and the step is admitted. A thread that is done has no
    /// such step. Takes no memory, and waits for no thread.
    pub fn try_step(
        &self,
        seat: &mut WeaveSeat,
        thread: &mut Thread,
        fitted: &Fitted,
        target: &Cut,
    ) -> Tried
        requires seat { seat.old.table_id ≡ self.now.table.shared.table_id }
        requires table { IsFor self.now.table.shared.key fitted.now }
        requires thread { IsSeated self.now.table.shared.key seat.old.me.0 thread.old }
        requires target { length target.now ≡ length fitted.now.guest.entries }
        requires below { thread.old.steps ≤ cut_of target.now thread.old.number }

        ensures seat { (seat.new.table_id ≡ seat.old.table_id) × (seat.new.id ≡ seat.old.id) }
        // The thread has taken its next step of each run with the trace, and nothing but private steps part it from its
        // seat's view.
        ensures stepped { result ≡ Stepped → HasStepped self.now.table.shared.key seat.old.me seat.new.me thread.old thread.new }
        // The thread wasn't admitted at some consistent cut that its seat has met by a look in this call, at or above
        // the one that it had met before. If the thread is done, this is the end of each run.
        ensures stopped { result ≡ NotNow → HasWaited self.now.table.shared.key seat.old.me seat.new.me thread.old thread.new }
        ensures reached { result ≡ AtTarget → (thread.new ≡ thread.old) × (seat.new.me ≡ seat.old.me) }
        ensures target { (result ≡ AtTarget) ↔ (thread.old.steps ≡ cut_of target.now thread.old.number) }
    {
        let asked = thread.ask(fitted.image().code());
        self.try_asked(seat, thread, fitted, target, asked)
    }

    /// Takes private steps, up to the thread's target and at most so many, until its next step is another: how many they are,
    /// and what the thread asks then. They touch no word of the table.
    pub fn run(
        &self,
        seat: &WeaveSeat,
        thread: &mut Thread,
        fitted: &Fitted,
        target: &Cut,
        most: u64,
    ) -> (u64, Ask)
        requires table { IsFor self.now.table.shared.key fitted.now }
        requires thread { IsSeated self.now.table.shared.key seat.now.me.0 thread.old }
        requires target { length target.now ≡ length fitted.now.guest.entries }
        requires below { thread.old.steps ≤ cut_of target.now thread.old.number }
        ensures ran { HasRunOn self.now.table.shared.key seat.now.me.0 thread.old thread.new result.0 }
        ensures below { thread.new.steps ≤ cut_of target.now thread.new.number }
        ensures asked { result.1 ≡ ask_of fitted.now.guest.code thread.new }
        ensures few { result.0 ≤ most }
        // Why it stopped below the target, with fewer.
        ensures stops { thread.new.steps < cut_of target.now thread.new.number → result.0 < most → result.1 ≢ ask.Private }
    {
        let left = target.position(thread.number() as usize) - thread.steps();
        thread.run(fitted.image().code(), left.min(most))
    }
}
