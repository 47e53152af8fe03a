//! The greatest of the heights before a place.

ghost use Rattle.std.specs.Prelude.{◌≡◌, ◌+◌, IfOk, length};
ghost use Rattle.std.specs.List.Sorted.{IsPermutation};
ghost use Rattle.ir_holds.specs.Held.{IsLeastFrom};
ghost use Rattle.ir_holds.specs.Heights.{IsLower, AreTops, AreHeights};

use std::alloc::{AllocError, Global};

/// A height at a place.
#[derive(Clone, Copy, Debug, PartialEq, Eq)]
pub struct Height {
    /// The place.
    pub at: u64,
    /// The height.
    pub top: u64,
}

/// Heights by rising place, and for each number of them the greatest of so many.
#[derive(Drop)]
pub struct Heights {
    each: Vec<Height>,
    tops: Vec<u64>,
}

// For each number of heights the greatest of so many, from none on.
fn tops_of(alloc: Global, each: &[Height]) -> Result<Vec<u64>, AllocError>
    ensures size { IfOk result (λ v. length v.items ≡ length each.now + 1) }
    ensures tops { IfOk result (λ v. AreTops each.now v.items) }
{
    let mut tops = Vec::new(alloc);
    let mut top = 0;
    tops.push(top)?;
    for height in each {
        top = height.top.max(top);
        tops.push(top)?;
    }
    Ok(tops)
}

impl Heights {
    /// These heights, in any order. Time is linear in their number, times its logarithm.
    ///
    /// # Errors
    /// Out of memory.
    pub fn of(alloc: Global, each: Vec<Height>) -> Result<Heights, AllocError>
        ensures are { IfOk result AreHeights }
        ensures same { IfOk result (λ h. IsPermutation each.items h.each.items) }
    {
        let mut each = each;
        each.sort_by_key(|height| height.at)?;
        let tops = tops_of(alloc, &each)?;
        Ok(Heights { each, tops })
    }

    /// The greatest height before a place; without any it is 0. Time is the logarithm of their number.
    pub fn before(&self, at: u64) -> u64
        requires { AreHeights self.now }
        ensures { IsLeastFrom 0 (IsLower (self.now).each.items at) result }
    {
        let count = self.each.partition_point(|height| height.at < at);
        self.tops[count]
    }
}
