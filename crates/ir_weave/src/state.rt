//! The threads and objects of a guest at a consistent cut.

ghost use Rattle.std.specs.Prelude.{◌≡◌};
ghost use Rattle.ir_weave.specs.Standing.{Standing};

use ir_fit::{Fitted, PassedState};
use ir_flat::Flat;
use ir_object::Object;
use ir_thread::Thread;
use std::alloc::{AllocError, Global};
use std::marker::Model;

/// The threads and objects of a guest at a consistent cut of its runs with a trace. In clauses two lists.
#[derive(Drop)]
pub struct State {
    threads: Vec<Thread>,
    objects: Vec<Object>,
}

impl Model for State {
    ghost Value = { Standing };

    ghost view = { λ s. record { threads = s.threads.items; objects = s.objects.items } };
}

impl State {
    ghost use Rattle.std.specs.Prelude.{◌≤◌, ℕ, IfOk};
    ghost use Rattle.ir_fit.specs.Passed.{IsPassed};
    ghost use Rattle.ir_weave.specs.Standing.{StandsAtCut, flat_in, positions};

    /// The guest before its first step.
    ///
    /// # Errors
    /// Out of memory.
    pub fn start(alloc: Global, fitted: &Fitted) -> Result<State, AllocError>
        ensures start { IfOk result (StandsAtCut fitted.now (λ t. 0)) }
        // The same by its own positions, which are below all others.
        ensures own { IfOk result (λ s. StandsAtCut fitted.now (positions (flat_in fitted.now s)) s) }
        ensures below { IfOk result (λ s. (p : ℕ → ℕ) (t : ℕ) → positions (flat_in fitted.now s) t ≤ p t) }
    {
        fitted.known();
        let trace = fitted.trace();
        let flat = Flat::start(alloc, fitted.image(), trace.budget(), trace.profile())?;
        let (threads, objects) = flat.into_parts();
        Ok(State { threads, objects })
    }

    /// The state that a run along the trace passed.
    pub fn passed(fitted: &Fitted, passed: PassedState) -> State
        requires { IsPassed fitted.now.guest fitted.now.recorded passed }
        ensures stands { StandsAtCut fitted.now (positions (flat_in fitted.now result)) result }
        ensures same { result ≡ record { threads = passed.threads.items; objects = passed.objects.items } }
    {
        fitted.known();
        let PassedState { threads, objects } = passed;
        State::build(threads, objects)
    }

    /// The state of these threads and objects.
    pub fn build(threads: Vec<Thread>, objects: Vec<Object>) -> State
        ensures { result ≡ record { threads = threads.items; objects = objects.items } }
    {
        State { threads, objects }
    }

    /// The threads and the objects.
    pub fn parts(self) -> (Vec<Thread>, Vec<Object>)
        ensures threads { result.0.items ≡ self.threads }
        ensures objects { result.1.items ≡ self.objects }
    {
        let State { threads, objects } = self;
        (threads, objects)
    }

    /// The threads, by their numbers.
    pub fn threads(&self) -> &[Thread]
        ensures { result.now ≡ self.now.threads }
    {
        self.threads.as_slice()
    }

    /// The objects, by their numbers.
    pub fn objects(&self) -> &[Object]
        ensures { result.now ≡ self.now.objects }
    {
        self.objects.as_slice()
    }
}
