//! Positions that are moved so that steps are inside a cut, or outside.

ghost use Rattle.std.specs.Prelude.{◌≡◌, ◌<◌, ◌+◌, ◌^◌, ℕ, length, IsTrue, ◌↔◌};
ghost use Rattle.ir_cut.specs.Positions.{cut_of};
ghost use Rattle.ir_cut.specs.Moving.{ArePlacedBetween, EachPlace, IsRaised, IsLowered};

use ir_fit::Place;

// Whether the steps at the places are inside the cut with these positions.
pub fn are_inside(positions: &[u64], places: &[Place]) -> bool
    requires { ArePlacedBetween (length positions.now) places.now }
    ensures { IsTrue result ↔ EachPlace places.now (length places.now) (λ p. p.position < cut_of positions.now p.thread) }
{
    for place in places {
        if place.position >= positions[place.thread as usize] {
            return false;
        }
    }
    true
}

// The positions are raised until the steps at the places are inside, and no further.
pub fn raise(positions: &mut Vec<u64>, places: &[Place])
    requires { ArePlacedBetween (length positions.old.items) places.now }
    ensures { IsRaised positions.old.items positions.new.items places.now (length places.now) }
{
    for place in places {
        let position = positions[place.thread as usize];
        positions[place.thread as usize] = position.max(place.position + 1);
    }
}

// The positions are lowered until the steps at the places are outside, and no further.
pub fn lower(positions: &mut Vec<u64>, places: &[Place])
    requires { ArePlacedBetween (length positions.old.items) places.now }
    ensures { IsLowered positions.old.items positions.new.items places.now (length places.now) }
{
    for place in places {
        let position = positions[place.thread as usize];
        positions[place.thread as usize] = position.min(place.position);
    }
}
