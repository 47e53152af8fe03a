//! The steps of a worker.

ghost use Rattle.std.specs.Prelude.{◌≡◌, ◌≢◌, ◌<◌, ◌≤◌, ◌++◌, false, OnOk, OnErr};
ghost use Rattle.ir_thread.specs.State.{ask_of};
ghost use Rattle.ir_runs.specs.declared.access.Access.TheVariants.{Reading, Writing};
ghost use Rattle.ir_runs.specs.declared.env_kind.EnvKind.{EnvKind};
ghost use Rattle.ir_thread.specs.declared.ask.Ask.TheVariants as ask;
ghost use Rattle.ir_record.specs.Working.{IsAtWork, StaysAtWork, IsStoppedWorker, IsReadyWorker, RanToEnd, TouchesNothing, IsInsideWork, IsOutside, own_steps_left};

use crate::by_threads::worker::Worker;
use crate::world::{World, WorldErr};
use ir_crew::Crew;
use ir_image::Code;
use ir_log::Event;
use ir_object::Gate;
use ir_runs::{Access, EnvKind};
use ir_thread::{Ask, Reply};
use std::sync::Wait;

// The most private steps that a thread takes before they are reported to the gate: some hundredths of a second.
const STRETCH: u64 = 1 << 24;

impl<W: World> Worker<W> {
    // Its thread enters the object for reading.
    fn enter_read<R: Wait, G: Gate>(
        &mut self,
        rt: &R,
        crew: &Crew,
        code: &Code,
        gate: &G,
        object: u8,
    )
        requires worker { IsAtWork W.answers crew.now code.now self.old }
        requires asked { ask_of code.now self.old.thread ≡ ask.Enter object Reading }
        ensures stays { StaysAtWork W.answers crew.now self.old self.new }
        ensures fewer { own_steps_left self.new.thread < own_steps_left self.old.thread }
        ensures world { self.new.world ≡ self.old.world }
    {
        let version = crew.enter_read(rt, &mut self.seat, object);
        gate.entered(self.thread.number(), object, Access::Reading);
        self.log.push(Event::Read { object, version });
        self.thread
            .take_asked(code, Ask::Enter(object, Access::Reading), Reply::Go);
    }

    // Its thread enters the object for writing.
    fn enter_write<R: Wait, G: Gate>(
        &mut self,
        rt: &R,
        crew: &Crew,
        code: &Code,
        gate: &G,
        object: u8,
    )
        requires worker { IsAtWork W.answers crew.now code.now self.old }
        requires asked { ask_of code.now self.old.thread ≡ ask.Enter object Writing }
        ensures stays { StaysAtWork W.answers crew.now self.old self.new }
        ensures fewer { own_steps_left self.new.thread < own_steps_left self.old.thread }
        ensures world { self.new.world ≡ self.old.world }
    {
        let (version, readers) = crew.enter_write(rt, &mut self.seat, object);
        gate.entered(self.thread.number(), object, Access::Writing);
        self.log.push(Event::Write {
            object,
            version,
            readers,
        });
        self.thread
            .take_asked(code, Ask::Enter(object, Access::Writing), Reply::Go);
    }

    // Its thread tries to enter the object for writing.
    fn try_write<G: Gate>(&mut self, crew: &Crew, code: &Code, gate: &G, object: u8)
        requires worker { IsAtWork W.answers crew.now code.now self.old }
        requires asked { ask_of code.now self.old.thread ≡ ask.Try object }
        ensures stays { StaysAtWork W.answers crew.now self.old self.new }
        ensures fewer { own_steps_left self.new.thread < own_steps_left self.old.thread }
        ensures world { self.new.world ≡ self.old.world }
    {
        let Some((version, readers)) = crew.try_write(&mut self.seat, object) else {
            self.log.push(Event::Try { object });
            self.thread
                .take_asked(code, Ask::Try(object), Reply::Value(0));
            return;
        };
        gate.entered(self.thread.number(), object, Access::Writing);
        self.log.push(Event::Write {
            object,
            version,
            readers,
        });
        self.thread
            .take_asked(code, Ask::Try(object), Reply::Value(1));
    }

    // Its thread leaves the object.
    #[inline(always)]
    fn leave<G: Gate>(&mut self, crew: &Crew, code: &Code, gate: &G, object: u8, access: Access)
        requires worker { IsAtWork W.answers crew.now code.now self.old }
        requires asked { ask_of code.now self.old.thread ≡ ask.Leave object access }
        ensures stays { StaysAtWork W.answers crew.now self.old self.new }
        ensures fewer { own_steps_left self.new.thread < own_steps_left self.old.thread }
        ensures world { self.new.world ≡ self.old.world }
    {
        gate.leaving(self.thread.number(), object, access);
        crew.leave(&mut self.seat, object, access);
        self.thread
            .take_asked(code, Ask::Leave(object, access), Reply::Go);
    }

    // Its thread reads a word of the object.
    #[inline(always)]
    fn get(&mut self, crew: &Crew, code: &Code, object: u8, index: u8)
        requires worker { IsAtWork W.answers crew.now code.now self.old }
        requires asked { ask_of code.now self.old.thread ≡ ask.Get object index }
        ensures stays { StaysAtWork W.answers crew.now self.old self.new }
        ensures fewer { own_steps_left self.new.thread < own_steps_left self.old.thread }
        ensures world { self.new.world ≡ self.old.world }
    {
        let value = crew.get(&mut self.seat, object, index);
        self.thread
            .take_asked(code, Ask::Get(object, index), Reply::Value(value));
    }

    // Its thread writes a word of the object.
    #[inline(always)]
    fn put(&mut self, crew: &Crew, code: &Code, object: u8, index: u8, value: u32)
        requires worker { IsAtWork W.answers crew.now code.now self.old }
        requires asked { ask_of code.now self.old.thread ≡ ask.Put object index value }
        ensures stays { StaysAtWork W.answers crew.now self.old self.new }
        ensures fewer { own_steps_left self.new.thread < own_steps_left self.old.thread }
        ensures world { self.new.world ≡ self.old.world }
    {
        crew.put(&mut self.seat, object, index, value);
        self.thread
            .take_asked(code, Ask::Put(object, index, value), Reply::Go);
    }

    // Its thread takes a step that concerns no other thread.
    #[inline(always)]
    fn take_own_step(&mut self, crew: &Crew, code: &Code, asked: Ask)
        requires worker { IsAtWork W.answers crew.now code.now self.old }
        requires asked { ask_of code.now self.old.thread ≡ asked }
        requires own { TouchesNothing asked }
        ensures stays { StaysAtWork W.answers crew.now self.old self.new }
        ensures fewer { own_steps_left self.new.thread < own_steps_left self.old.thread }
        ensures world { self.new.world ≡ self.old.world }
    {
        self.thread.take_asked(code, asked, Reply::Go);
    }

    // Its thread takes private steps that come next, all of them if they are few; and what it asks then. Their number is
    // reported to the gate.
    #[inline(always)]
    fn take_private_steps<G: Gate>(&mut self, crew: &Crew, code: &Code, gate: &G) -> Ask
        requires worker { IsAtWork W.answers crew.now code.now self.old }
        ensures asked { result ≡ ask_of code.now self.new.thread }
        ensures stays { StaysAtWork W.answers crew.now self.old self.new }
        ensures not_more { own_steps_left self.new.thread ≤ own_steps_left self.old.thread }
        ensures world { self.new.world ≡ self.old.world }
    {
        let (ran, asked) = self.thread.run_to_ask(code, STRETCH);
        gate.stepped(self.thread.number(), ran);
        asked
    }

    // Its world answers what its thread asks of the environment.
    fn ask_world(&mut self, crew: &Crew, code: &Code, kind: EnvKind) -> Result<(), WorldErr>
        requires worker { IsAtWork W.answers crew.now code.now self.old }
        requires asked { ask_of code.now self.old.thread ≡ ask.Env kind }
        requires works { W.broken self.old.world ≡ false }
        ensures stays { OnOk result (StaysAtWork W.answers crew.now self.old self.new) }
        ensures fewer { OnOk result (own_steps_left self.new.thread < own_steps_left self.old.thread) }
        ensures works { OnOk result (W.broken self.new.world ≡ false) }
        ensures stopped { OnErr result (IsStoppedWorker W.answers W.broken code.now self.old self.new) }
        ensures world { W.origin self.new.world ≡ W.origin self.old.world }
    {
        match self.world.answer(kind) {
            Ok(value) => {
                self.log.push(Event::Answer(kind, value));
                self.thread
                    .take_asked(code, Ask::Env(kind), Reply::Value(value));
                Ok(())
            }
            Err(e) => Err(e),
        }
    }

    // Its thread takes the step that it asks, which is neither none nor a call of the environment.
    #[inline(always)]
    fn take_step<R: Wait, G: Gate>(
        &mut self,
        rt: &R,
        crew: &Crew,
        code: &Code,
        gate: &G,
        asked: Ask,
    )
        requires worker { IsAtWork W.answers crew.now code.now self.old }
        requires asked { ask_of code.now self.old.thread ≡ asked }
        requires some { asked ≢ ask.Done }
        requires no_call { (kind : EnvKind) → asked ≢ ask.Env kind }
        ensures stays { StaysAtWork W.answers crew.now self.old self.new }
        ensures fewer { own_steps_left self.new.thread < own_steps_left self.old.thread }
        ensures world { self.new.world ≡ self.old.world }
    {
        match asked {
            Ask::Enter(object, Access::Reading) => self.enter_read(rt, crew, code, gate, object),
            Ask::Enter(object, Access::Writing) => self.enter_write(rt, crew, code, gate, object),
            Ask::Try(object) => self.try_write(crew, code, gate, object),
            Ask::Leave(object, access) => self.leave(crew, code, gate, object, access),
            Ask::Get(object, index) => self.get(crew, code, object, index),
            Ask::Put(object, index, value) => self.put(crew, code, object, index, value),
            _ => self.take_own_step(crew, code, asked),
        }
    }

    // It leaves all that its thread holds, the greatest object first.
    fn release_all<G: Gate>(&mut self, crew: &Crew, gate: &G)
        requires seat { self.old.seat.table_id ≡ crew.now.table.shared.table_id }
        requires worker { IsInsideWork crew.now.table.shared.key self.old.seat.me self.old.thread }
        ensures world { self.new.world ≡ self.old.world }
        ensures released { IsOutside self.old.seat.table_id self.new.seat }
    {
        let mut below = self.thread.held().len();
        while below > 0 {
            below -= 1;
            if let Some(access) = self.thread.held()[below] {
                gate.leaving(self.thread.number(), below as u8, access);
                crew.leave(&mut self.seat, below as u8, access);
            }
        }
    }

    // Its thread continues to its end, unless its world fails: then it leaves all that it holds.
    pub fn run_to_end<R: Wait, G: Gate>(&mut self, rt: &R, crew: &Crew, code: &Code, gate: &G)
        requires { IsReadyWorker W.answers W.broken crew.now.table.shared.key crew.now.table.shared.table_id code.now self.old }
        ensures { RanToEnd W.answers W.broken W.origin crew.now.table.shared.key self.old self.new }
    {
        'steps: loop {
            let asked = self.take_private_steps(crew, code, gate);
            match asked {
                Ask::Done => return,
                Ask::Env(kind) => {
                    if let Err(_) = self.ask_world(crew, code, kind) {
                        self.release_all(crew, gate);
                        return;
                    }
                }
                _ => self.take_step(rt, crew, code, gate, asked),
            }
        }
    }
}
