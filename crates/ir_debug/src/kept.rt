//! Cuts that are kept, each by a number.

ghost use Rattle.std.specs.Prelude.{◌≡◌, None, Some, MatchOption};
ghost use Rattle.ir_debug.specs.Machine.{Kept, kept_cut};
ghost use Rattle.ir_debug.specs.Debugging.{without_cut};

use ir_cut::Cut;
use std::marker::Model;

/// The most cuts that are kept beside the start.
pub const MOST_KEPT: usize = 64;

/// A cut that is kept, and the number by which it is asked for.
#[derive(Drop)]
pub struct KeptCut {
    number: u32,
    cut: Cut,
}

impl Model for KeptCut {
    ghost Value = { Kept };

    ghost view = { λ k. record { number = k.number; cut = k.cut } };
}

impl KeptCut {
    pub fn new(number: u32, cut: Cut) -> KeptCut
        ensures { result ≡ record { number = number; cut = cut } }
    {
        KeptCut { number, cut }
    }

    pub fn number(&self) -> u32
        ensures { result ≡ self.now.number }
    {
        self.number
    }

    pub fn cut(&self) -> &Cut
        ensures { result.now ≡ self.now.cut }
    {
        &self.cut
    }
}

// The cut of this number, if it is kept.
pub fn kept_cut(kept: &[KeptCut], number: u32) -> Option<&Cut>
    ensures { MatchOption result (kept_cut kept.now number ≡ None) (λ cut. kept_cut kept.now number ≡ Some cut.now) }
{
    for each in kept {
        if each.number() == number {
            return Some(each.cut());
        }
    }
    None
}

// Keeps the cut of this number no longer.
pub fn forget(kept: &mut Vec<KeptCut>, number: u32)
    ensures { kept.new.items ≡ without_cut kept.old.items number }
{
    kept.retain(|each| each.number() != number);
}
