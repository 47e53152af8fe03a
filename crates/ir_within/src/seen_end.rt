//! How threads ended, as it is looked up by a hash.

use ir_thread::End;
use std::hash::{Hash, Hasher};

/// How a thread ended, if it has.
#[derive(Clone, Copy, PartialEq, Eq)]
pub struct SeenEnd {
    /// The end.
    pub ended: Option<End>,
}

impl SeenEnd {
    ghost use Rattle.std.specs.Prelude.{◌≡◌};
    ghost use Rattle.ir_explore.specs.Lines.{end_pair, end_code_of};

    // Its number, 0 where there is none.
    fn number(self) -> u8
        ensures { result ≡ end_pair self.ended }
    {
        match self.ended {
            None => 0,
            Some(end) => end.number(),
        }
    }

    // Its code, 0 where there is none.
    fn code(self) -> u32
        ensures { result ≡ end_code_of self.ended }
    {
        match self.ended {
            None => 0,
            Some(end) => end.code(),
        }
    }
}

impl Hash for SeenEnd {
    ghost use Rattle.std.specs.Prelude.{◌++◌};
    ghost use Rattle.std.specs.Hash as fed;
    ghost use Rattle.std.proofs.Common.{rules};
    ghost use Rattle.std.specs.Cmp.Rules.{hashing};
    ghost use Rattle.ir_explore.specs.Lines.{end_pair, end_code_of};

    ghost hash_input = { λ a. fed.u8 (end_pair a.ended) ++ fed.u32 (end_code_of a.ended) };

    ghost respects_eq = { Prim.search (hashing, rules) };

    fn hash<H: Hasher>(&self, state: &mut H) {
        self.number().hash(state);
        self.code().hash(state);
    }
}
