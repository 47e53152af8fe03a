//! Readers and writers in memory, which fail when they are meant to.

use ir_debug::{DeviceErr, Sink, Source};
use std::alloc::Global;

/// A number of calls that is never reached, so that none of them fails.
pub const ENDLESS: u64 = 1_000_000;

// Gives its bytes; after `calls_left` calls each fails.
#[derive(Drop)]
pub struct Bytes<'a> {
    left: &'a [u8],
    calls_left: u64,
    failed: bool,
}

impl<'a> Bytes<'a> {
    ghost use Rattle.std.specs.Prelude.{◌≡◌, false};

    pub fn new(bytes: &'a [u8], calls_left: u64) -> Bytes<'a>
        ensures { result.failed ≡ false }
    {
        Bytes {
            left: bytes,
            calls_left,
            failed: false,
        }
    }
}

impl Source for Bytes<'_> {
    ghost use Rattle.std.specs.Prelude.{Some};

    ghost left = { λ b. Some b.left.now };

    ghost broken = { λ b. b.failed };

    fn read(&mut self, buffer: &mut [u8]) -> Result<usize, DeviceErr> {
        if self.calls_left == 0 {
            self.failed = true;
            return Err(DeviceErr);
        }
        self.calls_left -= 1;
        let count = self.left.len().min(buffer.len());
        let (prefix, rest) = self.left.split_at(count);
        buffer[..count].copy_from_slice(prefix);
        self.left = rest;
        Ok(count)
    }

    fn failed(&self) -> bool {
        self.failed
    }
}

// Takes a byte a call, or a hundred; after `calls_left` calls each fails.
#[derive(Drop)]
pub struct Page {
    pub bytes: Vec<u8>,
    takes_one: bool,
    calls_left: u64,
    failed: bool,
}

impl Page {
    ghost use Rattle.std.specs.Prelude.{◌≡◌, false};

    // An empty page.
    pub fn new(alloc: Global, takes_one: bool, calls_left: u64) -> Page
        ensures { result.failed ≡ false }
    {
        Page {
            bytes: Vec::new(alloc),
            takes_one,
            calls_left,
            failed: false,
        }
    }
}

impl Sink for Page {
    ghost use Rattle.std.specs.Prelude.{Some};

    ghost written = { λ p. Some p.bytes.items };

    ghost broken = { λ p. p.failed };

    fn write(&mut self, bytes: &[u8]) -> Result<usize, DeviceErr> {
        let most = if self.takes_one { 1 } else { 100 };
        let count = bytes.len().min(most);
        if self.calls_left == 0 || self.bytes.extend_from_slice(&bytes[..count]).is_err() {
            self.failed = true;
            return Err(DeviceErr);
        }
        self.calls_left -= 1;
        Ok(count)
    }

    fn failed(&self) -> bool {
        self.failed
    }
}
