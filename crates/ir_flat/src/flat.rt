//! The flat interpreter.

ghost use Rattle.ir_flat.specs.Alone.{WentAlone};
ghost use Rattle.ir_flat.specs.Flat.{Flat, IsFlat, start_flat, thread_of, cell_of, tables, machine};
ghost use Rattle.ir_runs.specs.Run.{Can, after};
ghost use Rattle.ir_flat.specs.Next.{next, MayStep};
ghost use Rattle.ir_thread.specs.State.{IsAllowed, most_budget, ask_of};
ghost use Rattle.ir_thread.specs.Permitted.{Permits};
ghost use Rattle.ir_thread.specs.Private.{NoInstruction, UnmarkedSteps, StopsUnmarked};
ghost use Rattle.ir_thread.specs.declared.ask.Ask.TheVariants.{Private};
ghost use Rattle.std.specs.Prelude.{◌≡◌, ◌≢◌, ◌<◌, ◌≤◌, ◌↔◌, length, IfOk, OnOk, OnErr, IsTrue};

use crate::parts::Parts;
use crate::start;
use ir_image::{Code, Image};
use ir_mach::MarkedCode;
use ir_object::Object;
use ir_thread::{Ask, Profile, Thread};
use std::alloc::{AllocError, Global};
use std::marker::Model;

/// There is no such step now: the thread is done, it must wait, or the result is none of the call's; a try has result 1 only if
/// no thread is inside.
#[derive(Clone, Copy, Debug, PartialEq, Eq)]
pub struct NotAdmitted;

/// All threads and objects of a guest. In clauses two lists, which are read as tables: the threads,
/// and the objects with who is inside them. The code that the threads run is the image's.
#[derive(Drop)]
pub struct Flat<'a> {
    parts: Parts<'a>,
}

impl<'a> Model for Flat<'a> {
    ghost Value = { Flat };

    ghost view = { λ f. f.parts };

    ghost invariant = { λ f. IsFlat f.parts };
}

impl<'a> Flat<'a> {
    /// The guest before its first step. The budget is in steps, for each thread; the profile says which system calls there are, and
    /// allows the guest's threads and objects (`Profile::allows`).
    ///
    /// # Errors
    /// Out of memory.
    pub fn start(
        alloc: Global,
        image: &'a Image,
        budget: u64,
        profile: Profile,
    ) -> Result<Flat<'a>, AllocError>
        requires budget { budget ≤ most_budget }
        requires allowed { IsAllowed profile image.now }
        ensures { IfOk result (λ f. f ≡ start_flat image.now budget profile) }
    {
        let threads = start::threads(alloc, image, budget, profile)?;
        let objects = start::objects(alloc, image)?;
        Ok(Flat {
            parts: Parts::new(image.code(), threads, objects),
        })
    }

    /// Becomes the guest before its first step, as `start` makes it. It takes no memory if it has as many threads and objects as the guest.
    ///
    /// # Errors
    /// Out of memory.
    pub fn restart(
        &mut self,
        alloc: Global,
        image: &'a Image,
        budget: u64,
        profile: Profile,
    ) -> Result<(), AllocError>
        requires budget { budget ≤ most_budget }
        requires allowed { IsAllowed profile image.now }
        ensures { OnOk result (self.new ≡ start_flat image.now budget profile) }
    {
        let threads = self.parts.threads().len();
        let objects = self.parts.objects().len();
        if threads != image.entries().len() || objects != image.object_count() {
            *self = Flat::start(alloc, image, budget, profile)?;
            return Ok(());
        }
        self.parts.restart(image, budget, profile);
        Ok(())
    }

    /// These threads and objects of a guest with this code.
    pub fn new(code: &'a Code, threads: Vec<Thread>, objects: Vec<Object>) -> Flat<'a>
        requires { IsFlat (record { code = code.now; threads = threads.items; objects = objects.items }) }
        ensures { result ≡ record { code = code.now; threads = threads.items; objects = objects.items } }
    {
        Flat {
            parts: Parts::new(code, threads, objects),
        }
    }

    /// The threads and the objects.
    pub fn into_parts(self) -> (Vec<Thread>, Vec<Object>)
        ensures threads { result.0.items ≡ self.entry.threads }
        ensures objects { result.1.items ≡ self.entry.objects }
        ensures within { IsFlat self.entry }
    {
        self.parts.into_parts()
    }

    /// An equal value with memory of its own for threads and objects.
    ///
    /// # Errors
    /// Out of memory.
    pub fn copy(&self) -> Result<Flat<'a>, AllocError>
        ensures { IfOk result (λ f. f ≡ self.now) }
    {
        Ok(Flat {
            parts: self.parts.copy()?,
        })
    }

    /// The threads, by their numbers.
    pub fn threads(&self) -> &[Thread]
        ensures value { result.now ≡ self.now.threads }
        ensures within { IsFlat self.now }
    {
        self.parts.threads()
    }

    /// The objects, by their numbers.
    pub fn objects(&self) -> &[Object]
        ensures value { result.now ≡ self.now.objects }
        ensures within { IsFlat self.now }
    {
        self.parts.objects()
    }

    /// The code that all threads run.
    pub fn code(&self) -> &'a Code
        ensures { result.now ≡ self.now.code }
    {
        self.parts.code()
    }

    /// Whether thread t has a step now, with result 0 where it calls the environment.
    pub fn can_step(&self, t: usize) -> bool
        requires { t < length self.now.threads }
        ensures { IsTrue result ↔ Can (machine self.now) (tables self.now) (t, 0) }
    {
        let asked = self.parts.ask(t);
        self.parts.may(t, 0, asked)
    }

    /// Thread t takes private steps, at most `limit`: how many they are, and what it asks then, which below the limit is no private
    /// step.
    #[inline(always)]
    pub fn run_to_ask(&mut self, t: usize, limit: u64) -> (u64, Ask)
        requires { t < length self.old.threads }
        ensures within { result.0 ≤ limit }
        ensures flat { IsFlat self.old }
        ensures still_flat { IsFlat self.new }
        ensures went { WentAlone self.old self.new t result.0 }
        ensures asked { result.1 ≡ ask_of self.new.code (thread_of self.new t) }
        ensures stops { result.0 < limit → NoInstruction self.new.code (thread_of self.new t) }
        ensures shared { result.0 < limit → result.1 ≢ Private }
    {
        self.parts.run_to_ask(t, limit)
    }

    /// Thread t takes instructions none of which is marked, at most `limit`, and how many they are. The marked code is the guest's.
    /// It stops below the limit only where the next step is marked or no instruction.
    pub fn run_unmarked(&mut self, t: usize, code: &MarkedCode<'_>, limit: u64) -> u64
        requires thread { t < length self.old.threads }
        requires code { code.now.words ≡ self.old.code }
        ensures within { result ≤ limit }
        ensures flat { IsFlat self.old }
        ensures went { WentAlone self.old self.new t result }
        ensures unmarked { UnmarkedSteps code.now result (thread_of self.old t) (thread_of self.new t) }
        ensures stops { result < limit → StopsUnmarked code.now (thread_of self.new t) }
    {
        self.parts.run_unmarked(t, code, limit)
    }

    /// What thread t asks for at its next step.
    pub fn ask(&self, t: usize) -> Ask
        requires { t < length self.now.threads }
        ensures value { result ≡ ask_of self.now.code (thread_of self.now t) }
        ensures permits { Permits (thread_of self.now t) result }
        ensures within { IsFlat self.now }
    {
        self.parts.ask(t)
    }

    /// Thread t takes its next step, for which it asks so. r is the result of a call of the environment, or of a try: 1 if
    /// the thread is inside then, 0 if it continues without. It is looked at in no other step.
    ///
    /// # Errors
    /// There is no such step; nothing changes.
    #[inline(always)]
    pub fn take(&mut self, t: usize, asked: Ask, r: u32) -> Result<(), NotAdmitted>
        requires thread { t < length self.old.threads }
        requires asked { asked ≡ ask_of self.old.code (thread_of self.old t) }

        // There is the step, and it is the one that is taken.
        ensures admitted { OnOk result (Can (machine self.old) (tables self.old) (t, r)) }
        ensures taken { OnOk result (tables self.new ≡ after (machine self.old) (tables self.old) (t, r)) }
        ensures code { self.new.code ≡ self.old.code }
        ensures threads { length self.new.threads ≡ length self.old.threads }
        ensures objects { length self.new.objects ≡ length self.old.objects }

        // There is none, and nothing changes.
        ensures refused { OnErr result (Can (machine self.old) (tables self.old) (t, r) → ⊥) }
        ensures unchanged { OnErr result (self.new ≡ self.old) }
    {
        if !self.parts.may(t, r, asked) {
            return Err(NotAdmitted);
        }
        self.parts.step(t, r, asked);
        Ok(())
    }

    /// Thread t takes its next step. r is the result of a call of the environment, or of a try: 1 if the thread is inside then,
    /// 0 if it continues without. It is looked at in no other step.
    ///
    /// # Errors
    /// There is no such step; nothing changes.
    pub fn step(&mut self, t: usize, r: u32) -> Result<(), NotAdmitted>
        requires { t < length self.old.threads }

        // There is the step, and it is the one that is taken.
        ensures admitted { OnOk result (Can (machine self.old) (tables self.old) (t, r)) }
        ensures taken { OnOk result (tables self.new ≡ after (machine self.old) (tables self.old) (t, r)) }
        ensures code { self.new.code ≡ self.old.code }
        ensures threads { length self.new.threads ≡ length self.old.threads }
        ensures objects { length self.new.objects ≡ length self.old.objects }

        // There is none, and nothing changes.
        ensures refused { OnErr result (Can (machine self.old) (tables self.old) (t, r) → ⊥) }
        ensures unchanged { OnErr result (self.new ≡ self.old) }
    {
        let asked = self.ask(t);
        self.take(t, asked, r)
    }
}
