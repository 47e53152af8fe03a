//! A session, from the bytes of an image and a trace to the answers to lines.

ghost use Rattle.std.specs.Prelude.{◌≡◌, ◌≤◌, true, false, Err, IfOk, IfSome};
ghost use Rattle.ir_stream.specs.Answers.{ReadsUpTo};
ghost use Rattle.ir_debug.specs.Session.{most_input, IfServed, IfRefused, ReadsThrough, Session, AnsweredWhole, AnsweredInPart, ended_by};

use crate::announcing::announce;
use crate::bytes::open;
use crate::debugger::Debugger;
use crate::ended::{Ended, SessionErr};
use crate::opening::Opened;
use crate::serving::serve;
use ir_object::Hands;
use ir_stream::{Fault, Served, Sink, Source};

/// The most bytes that a session reads.
pub const MOST_INPUT: u64 = 1_073_741_824;

fn ended(served: Result<Served, Fault>) -> Result<Ended, SessionErr>
    ensures { result ≡ ended_by served }
{
    match served {
        Ok(Served::Quit) => Ok(Ended::Quit),
        Ok(Served::InputEnd) => Ok(Ended::InputEnd),
        Err(Fault::Read) => Err(SessionErr::Read),
        Err(Fault::Write) => Err(SessionErr::Write),
        Err(Fault::TooLong) => Err(SessionErr::TooLong),
    }
}

/// Opens a debugger on an image and a trace and answers the lines that the reader gives.
///
/// The bytes that are written are the opening lines, and then the answers of the small machine that holds the guest, its
/// trace and a position of each thread, whichever run has the trace, and nothing else. Which order the threads that replay the run
/// took makes no difference. At most `limit` bytes are read. If the input has so many or more, and no whole line of
/// them is `quit`, those lines are answered, and then `TooLong`. An image or a trace
/// that is refused, and a trace that no run of the guest has, is named in the opening lines; then no line is read.
/// Each entry and leave of the threads is reported to the gate, of which no clause speaks.
///
/// # Errors
/// `NoMem` before a byte is written; `Read` and `Write` only where that device failed; `TooLong`.
pub fn session_up_to<H: Hands, R: Source, W: Sink>(
    hands: &H,
    limit: u64,
    image: &[u8],
    trace: &[u8],
    reader: &mut R,
    writer: &mut W,
) -> Result<Ended, SessionErr>
    requires limit { limit ≤ most_input }
    requires reads { R.broken reader.old ≡ false }
    requires writes { W.broken writer.old ≡ false }
    // Where no device fails and memory doesn't run out, the bytes that were read lead to the result and to what was
    // written, and neither device has failed.
    ensures ended { IfServed result (ReadsUpTo limit (R.left reader.old) (R.left reader.new)
        (Session image.now trace.now limit result (W.written writer.old) (W.written writer.new))) }
    ensures works { IfServed result ((R.broken reader.new ≡ false) × (W.broken writer.new ≡ false)) }
    // If the reader makes its bytes known, all of them together lead to it.
    ensures known { IfServed result (IfSome (R.left reader.old)
        (Session image.now trace.now limit result (W.written writer.old) (W.written writer.new))) }
    // No byte was read after the line that quits, and if the input ended the reader is at its end.
    ensures last { IfOk result (λ e. ReadsUpTo limit (R.left reader.old) (R.left reader.new) (ReadsThrough e (R.left reader.new))) }
    // Where the session ended well and nothing was opened, nothing was read.
    ensures unread { IfRefused result (reader.new ≡ reader.old) }
    // Where memory runs out, nothing was read or written.
    ensures no_memory { result ≡ Err SessionErr.NoMem → (reader.new ≡ reader.old) × (writer.new ≡ writer.old) }
    // After a failed read, the opening lines and all answers to the lines that were read whole.
    ensures read { result ≡ Err SessionErr.Read → (R.broken reader.new ≡ true) × (W.broken writer.new ≡ false)
        × ReadsUpTo limit (R.left reader.old) (R.left reader.new)
        (AnsweredWhole image.now trace.now (W.written writer.old) (W.written writer.new)) }
    // After a failed write, the opening lines and the answers to the lines but the last, in full, and a prefix of the last
    // one's: an answer is written before a byte after its line is read.
    ensures write { result ≡ Err SessionErr.Write → (R.broken reader.new ≡ false) × (W.broken writer.new ≡ true)
        × ReadsUpTo limit (R.left reader.old) (R.left reader.new)
        (AnsweredInPart image.now trace.now (R.left reader.new) (W.written writer.old) (W.written writer.new)) }
{
    let Ok(opened) = open(hands, image, trace) else {
        return Err(SessionErr::NoMem);
    };
    match announce(&opened, writer) {
        Ok(()) => {}
        Err(_) => return Err(SessionErr::Write),
    }
    match opened {
        Opened::ImageRefused(_error) => Ok(Ended::ImageRefused),
        Opened::TraceRefused(_error) => Ok(Ended::TraceRefused),
        Opened::Unfit(_verdict) => Ok(Ended::NotFit),
        Opened::Ready(debugger) => {
            let mut debugger: Debugger = debugger;
            ended(serve(hands, limit, reader, writer, &mut debugger))
        }
    }
}

/// `session_up_to` with the limit of 1,073,741,824 bytes.
pub fn session<H: Hands, R: Source, W: Sink>(
    hands: &H,
    image: &[u8],
    trace: &[u8],
    reader: &mut R,
    writer: &mut W,
) -> Result<Ended, SessionErr>
    requires reads { R.broken reader.old ≡ false }
    requires writes { W.broken writer.old ≡ false }
    ensures ended { IfServed result (ReadsUpTo most_input (R.left reader.old) (R.left reader.new)
        (Session image.now trace.now most_input result (W.written writer.old) (W.written writer.new))) }
    ensures works { IfServed result ((R.broken reader.new ≡ false) × (W.broken writer.new ≡ false)) }
    ensures known { IfServed result (IfSome (R.left reader.old)
        (Session image.now trace.now most_input result (W.written writer.old) (W.written writer.new))) }
    ensures last { IfOk result (λ e. ReadsUpTo most_input (R.left reader.old) (R.left reader.new) (ReadsThrough e (R.left reader.new))) }
    ensures unread { IfRefused result (reader.new ≡ reader.old) }
    ensures no_memory { result ≡ Err SessionErr.NoMem → (reader.new ≡ reader.old) × (writer.new ≡ writer.old) }
    ensures read { result ≡ Err SessionErr.Read → (R.broken reader.new ≡ true) × (W.broken writer.new ≡ false)
        × ReadsUpTo most_input (R.left reader.old) (R.left reader.new)
        (AnsweredWhole image.now trace.now (W.written writer.old) (W.written writer.new)) }
    ensures write { result ≡ Err SessionErr.Write → (R.broken reader.new ≡ false) × (W.broken writer.new ≡ true)
        × ReadsUpTo most_input (R.left reader.old) (R.left reader.new)
        (AnsweredInPart image.now trace.now (R.left reader.new) (W.written writer.old) (W.written writer.new)) }
{
    session_up_to(hands, MOST_INPUT, image, trace, reader, writer)
}
