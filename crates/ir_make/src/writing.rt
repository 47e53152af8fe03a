//! Images and reports that are written.

ghost use Rattle.std.specs.Prelude.{◌≡◌, ◌⊎◌, true};
ghost use Rattle.std.specs.Io.KnownBytes.{Appends};
ghost use Rattle.ir_files.specs.Writers.{writer_of, Failed};
ghost use Rattle.ir_files.specs.declared.exit_status.ExitStatus.TheVariants as status;

use ir_files::{ExitStatus, WholeSink};
use ir_stream::{DeviceErr, Sink, write_all};

/// Writes bytes, which are in their place then; the status.
pub fn write_bytes<W: WholeSink>(image: &mut W, bytes: &[u8]) -> ExitStatus
    ensures status { (result ≡ status.Done) ⊎ (result ≡ status.Failed) }
    ensures done { result ≡ status.Done → Appends (W.written image.old) (W.written image.new) bytes.now }
    ensures failed { result ≡ status.Failed → Failed (writer_of (W.written image.old) (W.written image.new) (W.broken image.new)) bytes.now }
    ensures whole { result ≡ status.Done → W.whole image.new ≡ true }
    ensures home { W.home image.new ≡ W.home image.old }
{
    match image.put_whole(bytes) {
        Ok(()) => ExitStatus::Done,
        Err(DeviceErr) => ExitStatus::Failed,
    }
}

/// Writes the report of a refusal; the status.
pub fn write_report<E: Sink>(faults: &mut E, report: &str) -> ExitStatus
    ensures status { (result ≡ status.Refused) ⊎ (result ≡ status.Failed) }
    ensures refused { result ≡ status.Refused → Appends (E.written faults.old) (E.written faults.new) report.now }
    ensures failed { result ≡ status.Failed → Failed (writer_of (E.written faults.old) (E.written faults.new) (E.broken faults.new)) report.now }
{
    match write_all(faults, report.as_bytes()) {
        Ok(()) => ExitStatus::Refused,
        Err(DeviceErr) => ExitStatus::Failed,
    }
}
