//! Points that are set, each by a number.

ghost use Rattle.std.specs.Prelude.{◌≡◌};
ghost use Rattle.ir_debug.specs.Machine.{most_points};
ghost use Rattle.ir_debug.specs.Debugging.{points_without, is_set};

use ir_hits::NumberedPoint;
use std::alloc::{AllocError, Global};
use std::marker::Model;

/// The most points that are set.
pub const MOST_POINTS: usize = 64;

/// The points that are set, the last at the end, with room for all that may be.
#[derive(Drop)]
pub struct Points {
    each: Vec<NumberedPoint>,
}

impl Model for Points {
    ghost use Rattle.std.specs.Prelude.{◌≤◌, List};
    ghost use Rattle.std.specs.Vec.{vec_capacity};
    ghost use Rattle.ir_hits.specs.Hits.{Numbered};
    ghost use Rattle.ir_debug.specs.Machine.{most_points};

    ghost Value = { List Numbered };

    ghost view = { λ p. p.each.items };

    ghost invariant = { λ p. most_points ≤ vec_capacity p.each };
}

impl Points {
    ghost use Rattle.std.specs.Prelude.{◌<◌, ◌++◌, [], ◌∷◌, length, IfOk};

    /// None, with room for 64.
    ///
    /// # Errors
    /// Out of memory.
    pub fn new(alloc: Global) -> Result<Points, AllocError>
        ensures { IfOk result (λ points. points ≡ []) }
    {
        let each = Vec::with_capacity(alloc, MOST_POINTS)?;
        Ok(Points { each })
    }

    /// The points.
    pub fn as_slice(&self) -> &[NumberedPoint]
        ensures { result.now ≡ self.now }
    {
        self.each.as_slice()
    }

    /// Sets one more, for which there is room. Takes no memory.
    pub fn set(&mut self, point: NumberedPoint)
        requires { length self.old < most_points }
        ensures { self.new ≡ self.old ++ point ∷ [] }
    {
        self.each.push_reserved(point);
    }

    /// Takes the point of this number away.
    pub fn clear(&mut self, number: u32)
        ensures { self.new ≡ points_without self.old number }
    {
        self.each.retain(|each| each.number() != number);
    }
}

/// Whether a point of this number is set.
pub fn is_set(points: &[NumberedPoint], number: u32) -> bool
    ensures { result ≡ is_set points.now number }
{
    for each in points {
        if each.number() == number {
            return true;
        }
    }
    false
}
