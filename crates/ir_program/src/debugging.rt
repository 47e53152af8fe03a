//! A session of an image and a trace, over lines of commands.

ghost use Rattle.std.specs.Prelude.{◌≡◌, ◌≢◌, Ok, false};
ghost use Rattle.ir_program.specs.Bundle.{status_of, program_fault_words};
ghost use Rattle.ir_program.specs.Taking.{reader_of};
ghost use Rattle.ir_program.specs.Leaving.{EndsSession, StopsSession, session_fault};
ghost use Rattle.ir_files.specs.Writers.{writer_of, Reports, fault_text};
ghost use Rattle.ir_files.specs.declared.exit_status.ExitStatus.TheVariants.{Failed};
ghost use Rattle.ir_debug.specs.declared.ended.Ended.{Ended};
ghost use Rattle.ir_debug.specs.declared.ended.SessionErr.{SessionErr};

use crate::bundles::status;
use crate::fault::ProgramErr;
use ir_debug::session;
use ir_files::{ExitStatus, tell};
use ir_object::Hands;
use ir_stream::{Sink, Source};

/// Runs the session of an image and a trace over the lines of the reader, and gives the exit status: that of the session
/// if it ended, and `Failed` for a fault, which is reported in one line.
pub fn debug_run<H: Hands, R: Source, W: Sink, E: Sink>(
    hands: &H,
    image: &[u8],
    trace: &[u8],
    reader: &mut R,
    writer: &mut W,
    faults: &mut E,
) -> ExitStatus
    requires reads { R.broken reader.old ≡ false }
    requires writes { W.broken writer.old ≡ false }
    requires reports { E.broken faults.old ≡ false }
    // The status of a session that ended, whose bytes were written. No fault is reported.
    ensures ended { result ≢ Failed → (e : Ended) × (result ≡ status_of e) × EndsSession image.now trace.now (Ok e)
        (reader_of (R.left reader.old) (R.left reader.new) (R.broken reader.new))
        (writer_of (W.written writer.old) (W.written writer.new) (W.broken writer.new)) × (faults.new ≡ faults.old) }
    // Else what stopped it, what that leaves, and that it is reported.
    ensures stopped { result ≡ Failed → (e : SessionErr) × StopsSession image.now trace.now e
        (reader_of (R.left reader.old) (R.left reader.new) (R.broken reader.new))
        (writer_of (W.written writer.old) (W.written writer.new) (W.broken writer.new)) ((reader.new ≡ reader.old) × (writer.new ≡ writer.old))
        × Reports (writer_of (E.written faults.old) (E.written faults.new) (E.broken faults.new)) (fault_text (program_fault_words (session_fault e))) }
{
    match session(hands, image, trace, reader, writer) {
        Ok(ended) => status(ended),
        Err(error) => {
            tell(faults, ProgramErr::from(error).words());
            ExitStatus::Failed
        }
    }
}
