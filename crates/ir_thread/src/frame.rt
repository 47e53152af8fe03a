//! All of a thread but its private memory.

ghost use Rattle.std.specs.Prelude.{◌≡◌, ◌+◌, ◌<◌, ◌≤◌, length, MatchOption};
ghost use Rattle.ir_image.specs.Guest.{most_objects};
ghost use Rattle.ir_thread.specs.Frames.{ThreadFrame};
ghost use Rattle.ir_thread.specs.State.{most_budget, most_events, most_output};
ghost use Rattle.ir_thread.specs.Permitted.{held_count};

use crate::end::End;
use crate::profile::Profile;
use ir_image::ImageForm;
use ir_mach::Regs;
use ir_runs::Access;
use std::marker::Model;

/// All of a thread but its private memory; of the output's room no more than what was printed takes.
#[derive(Drop)]
pub struct Frame {
    pub(crate) regs: Regs,
    pub(crate) number: u8,
    pub(crate) held: Vec<Option<Access>>,
    pub(crate) budget: u64,
    pub(crate) profile: Profile,
    pub(crate) form: ImageForm,
    pub(crate) steps: u64,
    pub(crate) events: u32,
    pub(crate) output: Vec<u8>,
    pub(crate) ended: Option<End>,
}

impl Model for Frame {
    ghost Value = { ThreadFrame };

    ghost view = { λ f. record {
      registers = f.regs;
      number = f.number;
      held = f.held.items;
      budget = f.budget;
      profile = f.profile;
      form = f.form;
      steps = f.steps;
      events = f.events;
      output = f.output.items;
      ended = f.ended;
    } };

    ghost invariant = { λ f. (f.budget ≤ most_budget) × (f.events ≤ most_events) × (length f.held.items ≤ most_objects)
        × MatchOption f.ended (f.steps ≤ f.budget) (λ _. f.steps + held_count f.held.items ≤ f.budget + 1 + length f.held.items)
        × (length f.output.items ≤ most_output) };
}
