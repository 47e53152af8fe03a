//! Readers and writers of std as sources and sinks.

ghost use Rattle.std.specs.Prelude.{◌≡◌, ℕ, true, false, ◌≤◌, ◌<◌, length, take, IfOk, OnErr, Ok};
ghost use Rattle.std.specs.Io.KnownBytes.{Keeps, Appends, Consumes, IsAtEnd};
ghost use Rattle.ir_stream.specs.Wrapped.{device_of, has_failed};

use crate::device::{DeviceErr, Sink, Source};
use std::io::{ErrorKind, Read, Write};

/// A reader or a writer of std, and whether one of its calls has failed. What is known of its bytes is what std's
/// contracts tell of the device. An interrupted call is made again.
#[derive(Drop)]
pub struct FromStd<D> {
    device: D,
    failed: bool,
}

impl<D> FromStd<D> {
    /// The device, of which no call has failed yet.
    pub fn new(device: D) -> FromStd<D>
        ensures device { device_of result ≡ device }
        ensures failed { has_failed result ≡ false }
    {
        FromStd {
            device,
            failed: false,
        }
    }

    // A call has failed.
    fn fail(&mut self) -> DeviceErr
        ensures device { device_of self.new ≡ device_of self.old }
        ensures failed { has_failed self.new ≡ true }
    {
        self.failed = true;
        DeviceErr
    }
}

impl<D: Read> Source for FromStd<D> {
    ghost left = { λ s. D.remaining s.device };

    ghost broken = { λ s. s.failed };

    fn read(&mut self, buffer: &mut [u8]) -> Result<usize, DeviceErr> {
        match read_again(&mut self.device, buffer) {
            Ok(n) => Ok(n),
            Err(_) => Err(self.fail()),
        }
    }

    fn failed(&self) -> bool {
        self.failed
    }
}

impl<D: Write> Sink for FromStd<D> {
    ghost written = { λ s. D.contents s.device };

    ghost broken = { λ s. s.failed };

    fn write(&mut self, bytes: &[u8]) -> Result<usize, DeviceErr> {
        match write_again(&mut self.device, bytes) {
            Ok(n) if n > 0 || bytes.is_empty() => Ok(n),
            _ => Err(self.fail()),
        }
    }

    fn failed(&self) -> bool {
        self.failed
    }
}

// One read, made again where a signal interrupts it.
fn read_again<D: Read>(device: &mut D, buffer: &mut [u8]) -> Result<usize, DeviceErr>
    ensures count { IfOk result (λ n. n ≤ length buffer.new) }
    ensures bytes { IfOk result (λ n. Consumes (D.remaining device.old) (D.remaining device.new) (take n buffer.new)) }
    ensures end { result ≡ Ok 0 → 0 < length buffer.old → IsAtEnd (D.remaining device.new) }
    ensures kept { OnErr result (Keeps (D.remaining device.old) (D.remaining device.new)) }
{
    for _ in 0..u64::MAX {
        match device.read(buffer) {
            Ok(n) => return Ok(n),
            Err(error) => {
                if error.kind() != ErrorKind::Interrupted {
                    return Err(DeviceErr);
                }
            }
        }
    }
    Err(DeviceErr)
}

// One write, made again where a signal interrupts it.
fn write_again<D: Write>(device: &mut D, bytes: &[u8]) -> Result<usize, DeviceErr>
    ensures count { IfOk result (λ n. n ≤ length bytes.now) }
    ensures bytes { IfOk result (λ n. Appends (D.contents device.old) (D.contents device.new) (take n bytes.now)) }
    ensures kept { OnErr result (Keeps (D.contents device.old) (D.contents device.new)) }
{
    for _ in 0..u64::MAX {
        match device.write(bytes) {
            Ok(n) => return Ok(n),
            Err(error) => {
                if error.kind() != ErrorKind::Interrupted {
                    return Err(DeviceErr);
                }
            }
        }
    }
    Err(DeviceErr)
}
