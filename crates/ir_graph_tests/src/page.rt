//! A writer in memory.

ghost use Rattle.std.specs.Prelude.{◌≡◌, false};

use ir_stream::{DeviceErr, Sink};

// Takes at most `most` bytes a call; after `calls_left` calls each fails.
#[derive(Drop)]
pub struct Page {
    pub bytes: Vec<u8>,
    most: usize,
    calls_left: u64,
    pub failed: bool,
}

impl Sink for Page {
    ghost use Rattle.std.specs.Prelude.{Some};

    ghost written = { λ p. Some p.bytes.items };

    ghost broken = { λ p. p.failed };

    fn write(&mut self, bytes: &[u8]) -> Result<usize, DeviceErr> {
        let count = bytes.len().min(self.most.max(1));
        if self.calls_left == 0 || self.bytes.extend_from_slice(&bytes[..count]).is_err() {
            self.failed = true;
            return Err(DeviceErr);
        }
        self.calls_left -= 1;
        Ok(count)
    }

    fn failed(&self) -> bool {
        self.failed
    }
}

pub const ENDLESS: u64 = 1_000_000;

pub fn empty_page(rt: &impl AllocGlobal, most: usize, calls_left: u64) -> Page
    ensures { result.failed ≡ false }
{
    Page {
        bytes: Vec::new(rt.alloc()),
        most,
        calls_left,
        failed: false,
    }
}
