//! The world of a thread that is recorded.

ghost use Rattle.std.specs.Prelude.{◌≡◌, ◌≤◌, ◌⊎◌, [], ◌∷◌, ◌++◌, vec_len, vec_capacity, IfOk, OnOk, OnErr, true, false};
ghost use Rattle.ir_thread.specs.State.{most_events, is_result};
ghost use Rattle.ir_runs.specs.declared.env_kind.EnvKind.TheVariants.{Clock};
ghost use Rattle.ir_world.specs.Sources.{source, Gave, Gave-prop, MadeWith, made_with, is_counted, from_sources};

use crate::sources::Sources;
use crate::time::{Time, millis_since};
use ir_record::{World, WorldErr};
use ir_runs::EnvKind;
use ir_thread::MOST_EVENTS;
use std::alloc::{AllocError, Global};
use std::time::Clock;

/// The most answers: as many as a thread may log.
pub const MOST_ANSWERS: usize = MOST_EVENTS as usize;

/// Answers one thread.
#[derive(Drop)]
pub struct ProgramWorld<'a, C> {
    clock: &'a C,
    time: Time,
    seed: u64,
    file: &'a [u8],
    sources: Sources<'a>,
    answers: Vec<(EnvKind, u32)>,
    failed: bool,
    full: bool,
    ghost room: { most_events ≤ vec_capacity answers },
    ghost few: { sources.ticks ≤ vec_len answers },
    ghost gave: { Gave (source seed file.now) (from_sources (is_counted time) answers.items) sources } by { Gave-prop (source seed file.now) (from_sources (is_counted time) answers.items) sources },
}

impl<'a, C> ProgramWorld<'a, C> {
    /// A world whose time comes from where it is said, whose random words start from the seed, and whose input is the
    /// file. The clock is read where the time is not counted.
    ///
    /// # Errors
    /// Out of memory: room is made for all answers in this call, and no answer takes any.
    pub fn new(
        alloc: Global,
        clock: &'a C,
        time: Time,
        seed: u64,
        file: &'a [u8],
    ) -> Result<ProgramWorld<'a, C>, AllocError>
        ensures time { IfOk result (λ w. w.time ≡ time) }
        ensures seed { IfOk result (λ w. w.seed ≡ seed) }
        ensures file { IfOk result (λ w. w.file.now ≡ file.now) }
        ensures fresh { IfOk result (λ w. w.answers.items ≡ []) }
        ensures works { IfOk result (λ w. w.failed ≡ false) }
    {
        let answers = Vec::with_capacity(alloc, MOST_ANSWERS)?;
        Ok(ProgramWorld {
            clock,
            time,
            seed,
            file,
            sources: Sources::new(seed, file),
            answers,
            failed: false,
            full: false,
        })
    }

    /// As it was before its first answer: its counts, words and bytes start again.
    pub fn restart(&mut self)
        ensures time { self.new.time ≡ self.old.time }
        ensures seed { self.new.seed ≡ self.old.seed }
        ensures file { self.new.file.now ≡ self.old.file.now }
        ensures fresh { self.new.answers.items ≡ [] }
        ensures works { self.new.failed ≡ false }
    {
        self.answers.clear();
        self.sources = Sources::new(self.seed, self.file);
        self.failed = false;
        self.full = false;
    }

    /// Whether it failed since it has no room for more answers; else only its clock fails it.
    pub fn is_full(&self) -> bool
        ensures { result ≡ self.now.full }
    {
        self.full
    }
}

impl<C: Clock> ProgramWorld<'_, C> {
    /// The next answer, as `World::answer` gives it.
    ///
    /// # Errors
    /// As many answers were given as a thread may log, or the call is answered by the clock, which can't be read.
    pub fn answered(&mut self, kind: EnvKind) -> Result<u32, WorldErr>
        requires { self.old.failed ≡ false }
        ensures origin { made_with self.new.time self.new.seed self.new.file.now ≡ made_with self.old.time self.old.seed self.old.file.now }
        ensures fits { IfOk result (λ value. is_result kind value ≡ true) }
        ensures answered { IfOk result (λ value. self.new.answers.items ≡ self.old.answers.items ++ (kind, value) ∷ []) }
        ensures works { OnOk result (self.new.failed ≡ false) }
        ensures kept { OnErr result (self.new.answers.items ≡ self.old.answers.items) }
        ensures failed { OnErr result (self.new.failed ≡ true) }
        // It fails for no other reason.
        ensures limits { OnErr result ((most_events ≤ vec_len self.old.answers) ⊎ ((kind ≡ Clock) × (is_counted self.old.time ≡ false))) }
    {
        if self.answers.len() >= MOST_ANSWERS {
            self.failed = true;
            self.full = true;
            return Err(WorldErr);
        }
        if let (EnvKind::Clock, Time::Since(start)) = (kind, self.time) {
            let Some(value) = millis_since(self.clock, start) else {
                self.failed = true;
                return Err(WorldErr);
            };
            self.answers.push_reserved((kind, value));
            return Ok(value);
        }
        let value = self.sources.answer(kind);
        self.answers.push_reserved((kind, value));
        Ok(value)
    }
}

impl<C: Clock> World for ProgramWorld<'_, C> {
    ghost answers = { λ w. w.answers.items };

    ghost Origin = { MadeWith };

    ghost origin = { λ w. made_with w.time w.seed w.file.now };

    ghost broken = { λ w. w.failed };

    fn answer(&mut self, kind: EnvKind) -> Result<u32, WorldErr> {
        self.answered(kind)
    }

    fn failed(&self) -> bool {
        self.failed
    }
}
