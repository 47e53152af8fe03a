//! Points, each with its number.

ghost use Rattle.std.specs.Prelude.{◌≡◌};
ghost use Rattle.ir_hits.specs.Hits.{Numbered};

use ir_command::Point;
use std::marker::Model;

/// The address at which a watch finds the first object's words.
pub const OBJECTS_START: u32 = 0x8000_0000;

/// The bytes from there on to the next object's.
pub const OBJECT_SIZE: u32 = 64;

/// A point, and the number that it goes by. A watch at an address of an object's word hits a thread that puts the word.
#[derive(Clone, Copy, Debug, PartialEq, Eq)]
pub struct NumberedPoint {
    number: u32,
    point: Point,
}

impl Model for NumberedPoint {
    ghost Value = { Numbered };

    ghost view = { λ p. record { number = p.number; point = p.point } };

    ghost inverse = { λ p. record { number = p.number; point = p.point } };
}

impl NumberedPoint {
    pub fn new(number: u32, point: Point) -> NumberedPoint
        ensures { result ≡ record { number = number; point = point } }
    {
        NumberedPoint { number, point }
    }

    /// The number.
    pub fn number(&self) -> u32
        ensures { result ≡ self.now.number }
    {
        self.number
    }

    /// The point.
    pub fn point(&self) -> Point
        ensures { result ≡ self.now.point }
    {
        self.point
    }
}
