//! How a guest is recorded.

ghost use Rattle.std.specs.Prelude.{◌≤◌, option_map};
ghost use Rattle.ir_thread.specs.State.{most_budget};
ghost use Rattle.ir_record_command.specs.Plan.{Plan};

use ir_thread::Profile;
use std::marker::Model;

/// How a guest is recorded: in which order, how far, and what answers it.
#[derive(Drop)]
pub struct RecordPlan<'a> {
    /// The list that spells the order; without it real threads run.
    pub order: Option<&'a str>,
    /// The most steps of each thread.
    pub budget: u64,
    /// Where random words start.
    pub random: u64,
    /// The bytes that guests read.
    pub input: &'a [u8],
    /// Which system calls guests may make.
    pub profile: Profile,
    ghost within: { budget ≤ most_budget },
}

impl<'a> Model for RecordPlan<'a> {
    ghost Value = { Plan };

    ghost view = { λ p. record { order = option_map (λ s. s.now) p.order; budget = p.budget; random = p.random; input = p.input.now; profile = p.profile } };
}
