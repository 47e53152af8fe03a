//! Worlds that answer nothing.

ghost use Rattle.ir_record.specs.Worlds.{NoneFailed};
ghost use Rattle.std.specs.Prelude.{◌≡◌, [], length, map, IfOk};

use ir_record::{World, WorldErr};
use ir_runs::EnvKind;
use std::alloc::{AllocError, Global};

/// A world that fails when it is asked.
#[derive(Debug, Drop)]
pub struct Silent {
    failed: bool,
}

impl World for Silent {
    ghost answers = { λ _. [] };

    ghost Origin = { Unit {0} };

    ghost origin = { λ _. tt };

    ghost broken = { λ s. s.failed };

    fn answer(&mut self, _kind: EnvKind) -> Result<u32, WorldErr> {
        self.failed = true;
        Err(WorldErr)
    }

    fn failed(&self) -> bool {
        self.failed
    }
}

/// `count` of them.
///
/// # Errors
/// Out of memory.
pub fn worlds(alloc: Global, count: usize) -> Result<Vec<Silent>, AllocError>
    ensures count { IfOk result (λ worlds. length worlds.items ≡ count) }
    ensures works { IfOk result (λ worlds. NoneFailed (map (λ w. w.failed) worlds.items)) }
{
    let mut worlds = Vec::with_capacity(alloc, count)?;
    for number in 0..count {
        worlds.push(Silent { failed: false })?;
    }
    Ok(worlds)
}
