//! A session over one stream: an image and a trace in hexadecimal, each in a line, and then commands.

ghost use Rattle.std.specs.Prelude.{◌≡◌, ◌≢◌, IfOk, IfErr, OnOk, Ok, false};
ghost use Rattle.ir_program.specs.Bundle.{status_of, program_fault_words};
ghost use Rattle.ir_program.specs.Leaving.{ComesToEnd, LeavesAfterFault};
ghost use Rattle.ir_files.specs.Writers.{writer_of, Reports, fault_text};
ghost use Rattle.ir_files.specs.declared.exit_status.ExitStatus.TheVariants.{Failed};
ghost use Rattle.ir_program.specs.declared.fault.ProgramErr.{ProgramErr};
ghost use Rattle.ir_debug.specs.declared.ended.Ended.{Ended};
ghost use Rattle.ir_program.specs.Taking.{reader_of, TakesBytes, LineFails};

use crate::fault::ProgramErr;
use crate::line::{bytes_of, read_line};
use ir_debug::{Ended, session};
use ir_files::{ExitStatus, tell};
use ir_object::Hands;
use ir_stream::{Sink, Source};
use std::alloc::Global;

// The bytes of the next line of hexadecimal digits.
fn next_bytes<R: Source>(alloc: Global, reader: &mut R) -> Result<Vec<u8>, ProgramErr>
    requires { R.broken reader.old ≡ false }
    ensures ok { IfOk result (λ bytes. TakesBytes (R.left reader.old) (R.left reader.new) bytes.items) }
    ensures stays { OnOk result (R.broken reader.new ≡ false) }
    ensures fails { IfErr result (λ e. LineFails e (reader_of (R.left reader.old) (R.left reader.new) (R.broken reader.new))) }
{
    let line = read_line(alloc, reader)?;
    bytes_of(alloc, line.as_slice())
}

/// Runs the session of an image and a trace that are in hexadecimal in the reader's first two lines, over its other
/// lines. A carriage return before a line feed or at the end is dropped, and a missing line is empty.
///
/// # Errors
/// `BadLine`, with nothing written, where one of the two lines is no text of whole bytes in at most 4,194,304 digits of
/// either case; out of memory; a fault of the session.
pub fn bundled<H: Hands, R: Source, W: Sink>(
    hands: &H,
    reader: &mut R,
    writer: &mut W,
) -> Result<Ended, ProgramErr>
    requires reads { R.broken reader.old ≡ false }
    requires writes { W.broken writer.old ≡ false }
    // No device has failed, and the session of both lines read and wrote so.
    ensures ok { IfOk result (λ ended. ComesToEnd (Ok ended)
        (reader_of (R.left reader.old) (R.left reader.new) (R.broken reader.new))
        (writer_of (W.written writer.old) (W.written writer.new) (W.broken writer.new))) }
    // What a fault leaves: what was read before it, and what had been written by then.
    ensures fault { IfErr result (λ e. LeavesAfterFault e
        (reader_of (R.left reader.old) (R.left reader.new) (R.broken reader.new))
        (writer_of (W.written writer.old) (W.written writer.new) (W.broken writer.new)) (writer.new ≡ writer.old)) }
{
    let alloc = hands.alloc();
    let image = next_bytes(alloc, reader)?;
    let trace = next_bytes(alloc, reader)?;
    let (image, trace) = (image.as_slice(), trace.as_slice());
    let ended = session(hands, image, trace, reader, writer)?;
    Ok(ended)
}

/// The exit status of a session that ended.
pub fn status(ended: Ended) -> ExitStatus
    ensures { result ≡ status_of ended }
{
    match ended {
        Ended::Quit | Ended::InputEnd => ExitStatus::Done,
        Ended::ImageRefused | Ended::TraceRefused => ExitStatus::Refused,
        Ended::NotFit => ExitStatus::NotFit,
    }
}

/// Runs a bundled session, and gives the exit status: that of the session if it ended, and `Failed` for a fault, which is
/// reported in one line.
pub fn bundle<H: Hands, R: Source, W: Sink, E: Sink>(
    hands: &H,
    reader: &mut R,
    writer: &mut W,
    faults: &mut E,
) -> ExitStatus
    requires reads { R.broken reader.old ≡ false }
    requires writes { W.broken writer.old ≡ false }
    requires reports { E.broken faults.old ≡ false }
    // The status of a session that ended, whose bytes were written. No fault is reported.
    ensures ended { result ≢ Failed → (e : Ended) × (result ≡ status_of e) × ComesToEnd (Ok e)
        (reader_of (R.left reader.old) (R.left reader.new) (R.broken reader.new))
        (writer_of (W.written writer.old) (W.written writer.new) (W.broken writer.new)) × (faults.new ≡ faults.old) }
    // Else what stopped it, what that leaves, and that it is reported.
    ensures stopped { result ≡ Failed → (e : ProgramErr) × LeavesAfterFault e
        (reader_of (R.left reader.old) (R.left reader.new) (R.broken reader.new))
        (writer_of (W.written writer.old) (W.written writer.new) (W.broken writer.new)) (writer.new ≡ writer.old)
        × Reports (writer_of (E.written faults.old) (E.written faults.new) (E.broken faults.new)) (fault_text (program_fault_words e)) }
{
    match bundled(hands, reader, writer) {
        Ok(ended) => status(ended),
        Err(why) => {
            tell(faults, why.words());
            ExitStatus::Failed
        }
    }
}
