//! What a session answers, kept until it is sent.

ghost use Rattle.std.specs.Prelude.{◌≡◌, [], Some, false, IfOk};

use ir_stream::{DeviceErr, Sink};
use std::alloc::{AllocError, Global};

// Room for the answer to each command but a long log.
const MOST_ANSWER: usize = 1 << 18;

/// A sink that keeps its bytes. It fails where there is no memory for more.
#[derive(Drop)]
pub struct Answered {
    bytes: Vec<u8>,
    failed: bool,
}

impl Answered {
    /// No bytes yet, and room for the answer to each command but a long log.
    ///
    /// # Errors
    /// Out of memory.
    pub fn new(alloc: Global) -> Result<Answered, AllocError>
        ensures bytes { IfOk result (λ answered. answered.bytes.items ≡ []) }
        ensures failed { IfOk result (λ answered. answered.failed ≡ false) }
    {
        Ok(Answered {
            bytes: Vec::with_capacity(alloc, MOST_ANSWER)?,
            failed: false,
        })
    }

    /// The bytes.
    pub fn as_slice(&self) -> &[u8]
        ensures { result.now ≡ self.now.bytes.items }
    {
        self.bytes.as_slice()
    }
}

impl Sink for Answered {
    ghost written = { λ s. Some s.bytes.items };

    ghost broken = { λ s. s.failed };

    fn write(&mut self, bytes: &[u8]) -> Result<usize, DeviceErr> {
        match self.bytes.extend_from_slice(bytes) {
            Ok(()) => Ok(bytes.len()),
            Err(_) => {
                self.failed = true;
                Err(DeviceErr)
            }
        }
    }

    fn failed(&self) -> bool {
        self.failed
    }
}
