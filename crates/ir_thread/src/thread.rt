//! One thread: what it is, and how it starts.

ghost use Rattle.std.specs.Prelude.{◌≡◌, ◌≢◌, ℕ, ◌+◌, ◌<◌, ◌≤◌, ◌^◌, ◌%◌, List, length, IfOk, MatchOption, vec_capacity, slice_index};
ghost use Rattle.ir_image.specs.Guest.{most_objects, object_count};
ghost use Rattle.ir_thread.specs.Permitted.{most_steps, held_count};
ghost use Rattle.ir_thread.specs.State.{ThreadState, start_state, most_budget, most_events, most_output};

use crate::end::End;
use crate::holding::{HELD_ROOM, roomy};
use crate::limits::MOST_OUTPUT;
use crate::profile::Profile;
use ir_image::{Image, ImageForm};
use ir_mach::Mach;
use ir_runs::Access;
use std::alloc::{AllocError, Global};
use std::marker::Model;

mod asking;
mod framing;
mod running;
mod taking;

/// A thread of a guest. Its room is made by `new`; no step takes memory.
#[derive(Drop)]
pub struct Thread {
    mach: Mach,
    number: u8,
    held: Vec<Option<Access>>,
    budget: u64,
    profile: Profile,
    form: ImageForm,
    steps: u64,
    events: u32,
    output: Vec<u8>,
    ended: Option<End>,
}

impl Model for Thread {
    ghost Value = { ThreadState };

    ghost view = { λ t. record {
      core = t.mach;
      number = t.number;
      held = t.held.items;
      budget = t.budget;
      profile = t.profile;
      form = t.form;
      steps = t.steps;
      events = t.events;
      output = t.output.items;
      ended = t.ended;
    } };

    ghost invariant = { λ t. (t.budget ≤ most_budget) × (t.events ≤ most_events) × (length t.held.items ≤ most_objects)
        × MatchOption t.ended (t.steps ≤ t.budget) (λ _. t.steps + held_count t.held.items ≤ t.budget + 1 + length t.held.items)
        × (most_output ≤ vec_capacity t.output) × (length t.output.items ≤ most_output) };
}

impl Thread {
    /// The thread of this number at its start, with room for all that it may print. The budget is in steps; the profile says which
    /// system calls there are.
    ///
    /// # Errors
    /// Out of memory.
    #[tactic(auto, using(ir_image::proofs::CallerLemmas::guest_threads_within))]
    pub fn new(
        alloc: Global,
        image: &Image,
        thread: usize,
        budget: u64,
        profile: Profile,
    ) -> Result<Thread, AllocError>
        requires thread { thread < length image.now.entries }
        requires budget { budget ≤ most_budget }
        ensures { IfOk result (λ t. t ≡ start_state image.now thread budget profile) }
    {
        let form = image.form();
        let objects = image.object_count();
        let output = Vec::with_capacity(alloc, MOST_OUTPUT)?;
        let mut held = Vec::with_capacity(alloc, HELD_ROOM)?;
        held.resize(objects, None)?;
        let mach = Mach::new(alloc, image, thread)?;
        Ok(Thread {
            mach,
            number: thread as u8,
            held,
            budget,
            profile,
            form,
            steps: 0,
            events: 0,
            output,
            ended: None,
        })
    }

    /// Becomes the thread of this number at its start, as `new` makes it, in the memory that it has.
    #[tactic(auto, using(ir_image::proofs::CallerLemmas::guest_threads_within))]
    pub fn restart(&mut self, image: &Image, thread: usize, budget: u64, profile: Profile)
        requires thread { thread < length image.now.entries }
        requires budget { budget ≤ most_budget }
        requires objects { length self.old.held ≡ object_count image.now }
        ensures { self.new ≡ start_state image.now thread budget profile }
    {
        let form = image.form();
        self.mach.restart(image, thread);
        self.number = thread as u8;
        self.held.fill(None);
        self.budget = budget;
        self.profile = profile;
        self.form = form;
        self.steps = 0;
        self.events = 0;
        self.output.clear();
        self.ended = None;
    }

    /// An equal thread with memory of its own.
    ///
    /// # Errors
    /// Out of memory.
    pub fn copy(&self) -> Result<Thread, AllocError>
        ensures { IfOk result (λ t. t ≡ self.now) }
    {
        let mut output = Vec::with_capacity(*self.output.allocator(), MOST_OUTPUT)?;
        output.extend_from_slice(self.output.as_slice())?;
        Ok(Thread {
            mach: self.mach.copy()?,
            number: self.number,
            held: roomy(*self.held.allocator(), self.held.as_slice())?,
            budget: self.budget,
            profile: self.profile,
            form: self.form,
            steps: self.steps,
            events: self.events,
            output,
            ended: self.ended,
        })
    }

    /// How many steps it has taken: its position.
    pub fn steps(&self) -> u64
        ensures value { result ≡ self.now.steps }
        ensures bound { result ≤ most_steps }
    {
        self.steps
    }

    /// How many steps it may take before it ends.
    pub fn budget(&self) -> u64
        ensures value { result ≡ self.now.budget }
        ensures bound { result ≤ most_budget }
    {
        self.budget
    }

    /// Which system calls there are.
    pub fn profile(&self) -> Profile
        ensures { result ≡ self.now.profile }
    {
        self.profile
    }

    /// How many events it has logged.
    pub fn events(&self) -> u32
        ensures value { result ≡ self.now.events }
        ensures bound { result ≤ most_events }
    {
        self.events
    }

    /// Its number.
    pub fn number(&self) -> u8
        ensures { result ≡ self.now.number }
    {
        self.number
    }

    /// For each object of the guest, what the thread is inside for, if it is inside.
    pub fn held(&self) -> &[Option<Access>]
        ensures value { result.now ≡ self.now.held }
        ensures bound { length result.now ≤ most_objects }
    {
        self.held.as_slice()
    }

    /// How it ended, if it has.
    pub fn ended(&self) -> Option<End>
        ensures { result ≡ self.now.ended }
    {
        self.ended
    }

    /// The bytes that it has printed.
    pub fn output(&self) -> &[u8]
        ensures value { result.now ≡ self.now.output }
        ensures bound { length result.now ≤ most_output }
    {
        self.output.as_slice()
    }

    /// The machine that it runs on.
    pub fn mach(&self) -> &Mach
        ensures { result.now ≡ self.now.core }
    {
        &self.mach
    }
}
