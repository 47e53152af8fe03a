//! Worlds that answer from a list, and then count or fail.

ghost use Rattle.std.specs.Prelude.{◌≡◌, length, map, IfOk};
ghost use Rattle.ir_record.specs.Worlds.{NoneFailed};

use ir_record::{World, WorldErr};
use ir_runs::EnvKind;
use std::alloc::{AllocError, Global};

/// At its list's end a world answers 0, 1, 2 and so on up to 255, and again from 0.
pub const COUNTS: Option<u32> = Some(0);

/// At its list's end it fails.
pub const FAILS: Option<u32> = None;

// Answers from a list, the last one first.
#[derive(Debug, Drop)]
pub struct Script {
    left: Vec<u32>,
    // What it answers at the list's end.
    next: Option<u32>,
    answered: Vec<(EnvKind, u32)>,
    failed: bool,
}

impl World for Script {
    ghost answers = { λ s. s.answered.items };

    ghost Origin = { Unit {0} };

    ghost origin = { λ _. tt };

    ghost broken = { λ s. s.failed };

    fn answer(&mut self, kind: EnvKind) -> Result<u32, WorldErr> {
        let value = match (self.left.pop(), self.next) {
            (Some(value), _) => value,
            (None, Some(next)) => {
                let value = next % 256;
                self.next = Some(value + 1);
                value
            }
            (None, None) => {
                self.failed = true;
                return Err(WorldErr);
            }
        };
        let is_none = kind == EnvKind::Input && value >= 256;
        if is_none || self.answered.push((kind, value)).is_err() {
            self.failed = true;
            return Err(WorldErr);
        }
        Ok(value)
    }

    fn failed(&self) -> bool {
        self.failed
    }
}

impl Script {
    /// How many answers it gave.
    pub fn answered(&self) -> usize {
        self.answered.len()
    }

    /// How many of its list are left.
    pub fn left(&self) -> usize {
        self.left.len()
    }
}

/// `count` worlds with these answers each, the last one first, and what they do then.
pub fn worlds(
    alloc: Global,
    count: usize,
    answers: &[u32],
    next: Option<u32>,
) -> Result<Vec<Script>, AllocError>
    ensures count { IfOk result (λ worlds. length worlds.items ≡ count) }
    ensures works { IfOk result (λ worlds. NoneFailed (map (λ w. w.failed) worlds.items)) }
{
    let mut worlds = Vec::with_capacity(alloc, count)?;
    for number in 0..count {
        let left = Vec::from_slice(alloc, answers)?;
        worlds.push(Script {
            left,
            next,
            answered: Vec::new(alloc),
            failed: false,
        })?;
    }
    Ok(worlds)
}
