//! A trace in memory.

ghost use Rattle.std.specs.Prelude.{◌≡◌, ◌<◌, ◌≤◌, length, slice_get, Some, IfOk, OnErr};
ghost use Rattle.ir_log.specs.Asked.{SuitsEvent};
ghost use Rattle.ir_log.specs.declared.event.Event.{Event};
ghost use Rattle.ir_thread.specs.State.{most_events};
ghost use Rattle.ir_trace.specs.Recorded.{Recorded, recorded_thread};
ghost use Rattle.ir_trace.specs.Bounds.{IsRecorded, IsRecordedThread};

use crate::thread_trace::ThreadTrace;
use ir_log::{Cursor, Disagree, Event};
use ir_thread::{Ask, Profile};
use std::alloc::AllocError;
use std::marker::Model;

/// What was recorded of a run, within the limits of a trace.
#[derive(Drop)]
pub struct Trace {
    objects: u8,
    budget: u64,
    profile: Profile,
    threads: Vec<ThreadTrace>,
}

impl Model for Trace {
    ghost Value = { Recorded };

    ghost view = { λ t. record { objects = t.objects; budget = t.budget; profile = t.profile; threads = t.threads.items } };

    ghost invariant = { λ t. IsRecorded (record { objects = t.objects; budget = t.budget; profile = t.profile; threads = t.threads.items }) };
}

impl Trace {
    /// The trace of these parts: how many objects the guest has, each thread's budget in steps, the threads by their numbers, and which
    /// system calls there are. It takes no memory.
    pub fn new(objects: u8, budget: u64, threads: Vec<ThreadTrace>, profile: Profile) -> Trace
        requires { IsRecorded (record { objects = objects; budget = budget; profile = profile; threads = threads.items }) }
        ensures { result ≡ record { objects = objects; budget = budget; profile = profile; threads = threads.items } }
    {
        Trace {
            objects,
            budget,
            profile,
            threads,
        }
    }

    /// How many objects the guest has.
    pub fn objects(&self) -> u8
        ensures value { result ≡ self.now.objects }
        ensures within { IsRecorded self.now }
    {
        self.objects
    }

    /// How many steps each thread might take before it had to end.
    pub fn budget(&self) -> u64
        ensures value { result ≡ self.now.budget }
        ensures within { IsRecorded self.now }
    {
        self.budget
    }

    /// Which system calls there are.
    pub fn profile(&self) -> Profile
        ensures { result ≡ self.now.profile }
    {
        self.profile
    }

    /// What was recorded of each thread, in the order of their numbers.
    pub fn threads(&self) -> &[ThreadTrace]
        ensures value { result.now ≡ self.now.threads }
        ensures within { IsRecorded self.now }
    {
        self.threads.as_slice()
    }

    /// The event of thread t that comes after `before` others, if a step that asks so may log it.
    ///
    /// # Errors
    /// `Disagree` if the thread has no such event, or if it is none that such a step logs.
    #[inline(always)]
    pub fn next_event(&self, t: usize, before: u32, asked: Ask) -> Result<Event, Disagree>
        requires thread { t < length self.now.threads }
        requires before { before ≤ most_events }
        ensures next { IfOk result (λ event. slice_get (recorded_thread self.now t).events before ≡ Some event) }
        ensures suits { IfOk result (λ event. SuitsEvent asked event) }
        ensures within { IsRecordedThread self.now.profile self.now.objects (recorded_thread self.now t) }
        ensures disagrees { OnErr result ((event : Event) → slice_get (recorded_thread self.now t).events before ≡ Some event → SuitsEvent asked event → ⊥) }
    {
        Cursor::at(before as usize).expect(self.threads[t].log(), &asked)
    }

    /// An equal trace with memory of its own.
    ///
    /// # Errors
    /// Out of memory.
    pub fn copy(&self) -> Result<Trace, AllocError>
        ensures { IfOk result (λ t. t ≡ self.now) }
    {
        let mut threads = Vec::with_capacity(*self.threads.allocator(), self.threads.len())?;
        for thread in &self.threads {
            threads.push(thread.copy()?)?;
        }
        Ok(Trace {
            objects: self.objects,
            budget: self.budget,
            profile: self.profile,
            threads,
        })
    }
}
