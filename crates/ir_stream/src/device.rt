//! Readers and writers, by the bytes that they have left and hold.

ghost use Rattle.std.specs.Prelude.{◌≡◌, ℕ, Bool, true, ◌≤◌, ◌<◌, List, length, take, IfOk, OnOk, OnErr, [], Ok};
ghost use Rattle.std.specs.declared.option.Option.{Option};
ghost use Rattle.std.specs.Io.KnownBytes.{Keeps, Appends, Consumes, IsAtEnd};
ghost use Rattle.ir_stream.specs.Writing.{WritesText};

/// A device failed, and stays so.
#[derive(Clone, Copy, Debug, PartialEq, Eq)]
pub struct DeviceErr;

/// What gives bytes. An `Err` takes none of them and makes `failed` true for good.
pub trait Source {
    /// The bytes that are still to come, if the device makes them known.
    ghost left: { Self → Option (List ℕ) };

    /// Whether a read has failed.
    ghost broken: { Self → Bool };

    /// Moves some bytes to the prefix of the buffer and gives their number, which is 0 only at the end of the bytes or
    /// for an empty buffer.
    fn read(&mut self, buffer: &mut [u8]) -> Result<usize, DeviceErr>
        ensures count { IfOk result (λ n. n ≤ length buffer.new) }
        ensures bytes { IfOk result (λ n. Consumes (left self.old) (left self.new) (take n buffer.new)) }
        ensures end { result ≡ Ok 0 → 0 < length buffer.old → IsAtEnd (left self.new) }
        ensures stays { OnOk result (broken self.new ≡ broken self.old) }
        ensures kept { OnErr result (Keeps (left self.old) (left self.new)) }
        ensures err { OnErr result (broken self.new ≡ true) };

    /// Whether a read has failed.
    fn failed(&self) -> bool
        ensures { result ≡ broken self.now };
}

/// What takes bytes. An `Err` takes none of them and makes `failed` true for good.
pub trait Sink {
    /// The bytes that it took so far, if the device makes them known.
    ghost written: { Self → Option (List ℕ) };

    /// Whether a write has failed.
    ghost broken: { Self → Bool };

    /// Takes some bytes from the prefix and gives their number, which is 0 only for no bytes.
    fn write(&mut self, bytes: &[u8]) -> Result<usize, DeviceErr>
        ensures count { IfOk result (λ n. n ≤ length bytes.now) }
        ensures some { result ≡ Ok 0 → bytes.now ≡ [] }
        ensures bytes { IfOk result (λ n. Appends (written self.old) (written self.new) (take n bytes.now)) }
        ensures stays { OnOk result (broken self.new ≡ broken self.old) }
        ensures kept { OnErr result (Keeps (written self.old) (written self.new)) }
        ensures err { OnErr result (broken self.new ≡ true) };

    /// Whether a write has failed.
    fn failed(&self) -> bool
        ensures { result ≡ broken self.now };
}

/// Writes all of the bytes. After an `Err` the writer has failed and took a prefix of them.
pub fn write_all<W: Sink>(writer: &mut W, bytes: &[u8]) -> Result<(), DeviceErr>
    ensures { WritesText W.written W.broken writer.old writer.new bytes.now result }
{
    let mut rest = bytes;
    while !rest.is_empty() {
        let n = writer.write(rest)?;
        rest = &rest[n..];
    }
    Ok(())
}
