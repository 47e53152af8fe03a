//! Outputs of a recording in memory.

ghost use Rattle.std.specs.Prelude.{◌≡◌, false};

use ir_debug::DeviceErr;
use ir_files::OutputSink;
use std::alloc::{AllocError, AllocGlobal, Global};

/// What a thread printed.
#[derive(Drop)]
pub struct KeptOutput {
    pub thread: usize,
    pub bytes: Vec<u8>,
}

/// Keeps what it takes; the call of this number fails, and each after it.
#[derive(Drop)]
pub struct KeptOutputs {
    alloc: Global,
    pub each: Vec<KeptOutput>,
    calls_left: u64,
    pub failed: bool,
}

pub fn no_outputs(rt: &impl AllocGlobal, calls_left: u64) -> KeptOutputs
    ensures { result.failed ≡ false }
{
    KeptOutputs {
        alloc: rt.alloc(),
        each: Vec::new(rt.alloc()),
        calls_left,
        failed: false,
    }
}

impl KeptOutputs {
    ghost use Rattle.std.specs.Prelude.{◌++◌, ◌∷◌, [], map, OnOk, OnErr};
    ghost use Rattle.ir_files.specs.Outputs.{Printed};

    // Keeps a copy.
    fn add(&mut self, thread: usize, bytes: &[u8]) -> Result<(), AllocError>
        ensures ok { OnOk result
            (map {B = Printed} (λ o. (o.thread, o.bytes.items)) self.new.each.items
            ≡ map {B = Printed} (λ o. (o.thread, o.bytes.items)) self.old.each.items ++ (thread, bytes.now) ∷ []) }
        ensures err { OnErr result (self.new.each.items ≡ self.old.each.items) }
        ensures failed { self.new.failed ≡ self.old.failed }
    {
        let bytes = Vec::from_slice(self.alloc, bytes)?;
        self.each.push(KeptOutput { thread, bytes })?;
        Ok(())
    }
}

impl OutputSink for KeptOutputs {
    ghost use Rattle.std.specs.Prelude.{ℕ, Some, map, codes};
    ghost use Rattle.ir_files.specs.Outputs.{Printed};

    ghost Home = { ℕ };

    ghost home = { λ _. 0 };

    ghost taken = { λ k. Some (map {B = Printed} (λ o. (o.thread, o.bytes.items)) k.each.items) };

    ghost broken = { λ k. k.failed };

    ghost called = { λ _. codes "output" };

    ghost cause = { λ _. codes "its calls are used up" };

    fn put(&mut self, thread: usize, bytes: &[u8]) -> Result<(), DeviceErr> {
        if self.calls_left == 0 || self.add(thread, bytes).is_err() {
            self.failed = true;
            return Err(DeviceErr);
        }
        self.calls_left = self.calls_left.saturating_sub(1);
        Ok(())
    }

    fn name(&self) -> &str {
        "output"
    }

    fn why(&self) -> &str {
        "its calls are used up"
    }
}
