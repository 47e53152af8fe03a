//! The rule of the table, and what its steps tell.

use crate::plan::{Plan, Progress};
use atomic_table::{Join, Play, Split, TableRule};
use std::collections::LinkedList;

pub struct Law;

impl TableRule<(), LinkedList<Progress>, Plan> for Law {
    ghost use Rattle.std.specs.Prelude.{length};
    ghost use Rattle.ir_weave.specs.Woven.{Woven, tracks_from};

    ghost holds = { Woven };

    ghost first = { λ k. tracks_from k 0 (length k.opened.value.threads) };
}

// A load of an object's word before an entry.
pub struct Look;

impl Play<(), LinkedList<Progress>> for Look {
    ghost use Rattle.ir_weave.specs.Woven.{looked};

    ghost then = { looked };
}

// A step on an object.
pub struct StepOn;

impl Play<(), LinkedList<Progress>> for StepOn {
    ghost use Rattle.ir_weave.specs.Woven.{stepped_on};

    ghost then = { stepped_on };
}

// A load of an object's word before a writer's leave.
pub struct ReadVersion;

impl Play<(), LinkedList<Progress>> for ReadVersion {
    ghost use Rattle.ir_weave.specs.Woven.{read_version};

    ghost then = { read_version };
}

// Cuts off the first thread.
pub struct OffFirst;

impl Split<LinkedList<Progress>> for OffFirst {
    ghost use Rattle.std.specs.Prelude.{drop, take};

    ghost left = { drop 1 };

    ghost right = { take 1 };
}

pub struct Both;

impl Join<LinkedList<Progress>> for Both {
    ghost use Rattle.std.specs.Prelude.{[], ◌++◌};

    ghost both = { λ v w. v ++ w };

    ghost spent = { [] };
}
