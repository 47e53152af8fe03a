//! Breakpoints with their conditions.

ghost use Rattle.std.specs.Prelude.{◌≡◌, ◌≤◌};
ghost use Rattle.ir_gdb.specs.Guards as guards;

use crate::point::Breakpoint;
use ir_packet::Condition;
use std::marker::Model;

/// What the number of a breakpoint with conditions is more than its place says.
pub const GUARD_OFFSET: u32 = 192;

/// A breakpoint, and its conditions: without any it always stops.
#[derive(Drop)]
pub struct Guarded {
    point: Breakpoint,
    conditions: Vec<Condition>,
}

impl Model for Guarded {
    ghost use Rattle.ir_gdb.specs.Guards as guards;

    ghost Value = { guards.Guarded };

    ghost view = { λ g. record { point = g.point; conditions = g.conditions.items } };
}

impl Guarded {
    /// A breakpoint with these conditions.
    pub fn new(point: Breakpoint, conditions: Vec<Condition>) -> Guarded
        ensures { result ≡ guards.guarded point conditions.items }
    {
        Guarded { point, conditions }
    }

    /// The breakpoint.
    pub fn point(&self) -> Breakpoint
        ensures { result ≡ self.now.point }
    {
        self.point
    }

    /// The conditions.
    pub fn conditions(&self) -> &[Condition]
        ensures { result.now ≡ self.now.conditions }
    {
        self.conditions.as_slice()
    }

    /// Whether it has some.
    pub fn is_guarded(&self) -> bool
        ensures { result ≡ guards.is_guarded self.now }
    {
        !self.conditions.is_empty()
    }

    /// Its number at a place among the points.
    pub fn number_at(&self, place: u32) -> u32
        requires { place ≤ 64 }
        ensures { result ≡ guards.break_number self.now place }
    {
        if self.is_guarded() {
            place + GUARD_OFFSET
        } else {
            place
        }
    }
}

/// Whether it is the number of a breakpoint with conditions.
pub fn has_guard(number: u32) -> bool
    ensures { result ≡ guards.has_guard number }
{
    GUARD_OFFSET <= number
}

/// The place that a number says.
pub fn place_of(number: u32) -> u32
    ensures { result ≡ guards.place_of number }
{
    if has_guard(number) {
        number - GUARD_OFFSET
    } else {
        number
    }
}
