//! A connection from the bytes of an image and a trace on.

ghost use Rattle.std.specs.Prelude.{◌≡◌, false, true, Err, IfSome};
ghost use Rattle.std.specs.Io.KnownBytes.{Appends};
ghost use Rattle.ir_stream.specs.Answers.{AppendsPrefix, ReadsUpTo};
ghost use Rattle.ir_packet.specs.Stream.{items};
ghost use Rattle.ir_debug.specs.Session.{most_input, IfServed, IfRefused, ended_by};
ghost use Rattle.ir_debug.specs.Openings.{opening_of};
ghost use Rattle.ir_debug.specs.declared.opening.Opened.TheVariants.{Ready};
ghost use Rattle.ir_gdb.specs.Connection.{WroteReplies, WroteRepliesInPart};
ghost use Rattle.ir_gdb.specs.Session.{first_link, ServesItems, EndsUnopened, Connected, Announced, RepliedWhole, RepliedInPart, IfNotRefused};

use crate::connection::Connection;
use crate::remote::Remote;
use ir_debug::{Debugger, Ended, MOST_INPUT, Opened, SessionErr, announce, open};
use ir_object::Hands;
use ir_stream::{Fault, Served, Sink, Source};

// How a connection ends.
fn ended(served: Result<Served, Fault>) -> Result<Ended, SessionErr>
    ensures { result ≡ ended_by served }
{
    match served {
        Ok(Served::Quit) => Ok(Ended::Quit),
        Ok(Served::InputEnd) => Ok(Ended::InputEnd),
        Err(Fault::Read) => Err(SessionErr::Read),
        Err(Fault::Write) => Err(SessionErr::Write),
        Err(Fault::TooLong) => Err(SessionErr::TooLong),
    }
}

// How a connection ends that isn't opened.
fn refusal_of(opened: &Opened) -> Ended
    requires { (debugger : _) → opened.now ≡ Ready debugger → ⊥ }
    ensures { EndsUnopened (opening_of opened.now) result }
{
    match opened {
        Opened::ImageRefused(_) => Ended::ImageRefused,
        Opened::TraceRefused(_) => Ended::TraceRefused,
        Opened::Unfit(_) => Ended::NotFit,
        Opened::Ready(_) => unreachable!(),
    }
}

// Serves a debugger that is ready.
fn serve<H: Hands, R: Source, W: Sink>(
    hands: &H,
    debugger: Debugger,
    reader: &mut R,
    writer: &mut W,
) -> Result<Ended, SessionErr>
    requires reads { R.broken reader.old ≡ false }
    requires writes { W.broken writer.old ≡ false }
    ensures ended { IfServed result (ReadsUpTo most_input (R.left reader.old) (R.left reader.new)
        (ServesItems debugger.desk result (W.written writer.old) (W.written writer.new))) }
    ensures works { IfServed result ((R.broken reader.new ≡ false) × (W.broken writer.new ≡ false)) }
    ensures known { IfServed result (IfSome (R.left reader.old)
        (ServesItems debugger.desk result (W.written writer.old) (W.written writer.new))) }
    ensures opened { IfRefused result ⊥ }
    ensures no_memory { result ≡ Err SessionErr.NoMem → (reader.new ≡ reader.old) × (writer.new ≡ writer.old) }
    ensures read { result ≡ Err SessionErr.Read → (R.broken reader.new ≡ true) × (W.broken writer.new ≡ false)
        × ReadsUpTo most_input (R.left reader.old) (R.left reader.new) (λ consumed.
        WroteReplies (first_link debugger.desk) (items consumed) false (W.written writer.old) (W.written writer.new)) }
    ensures write { result ≡ Err SessionErr.Write → (R.broken reader.new ≡ false) × (W.broken writer.new ≡ true)
        × ReadsUpTo most_input (R.left reader.old) (R.left reader.new) (λ consumed.
        WroteRepliesInPart (first_link debugger.desk) (items consumed) (W.written writer.old) (W.written writer.new)) }
{
    let alloc = hands.alloc();
    let Ok(remote) = Remote::new(alloc, debugger) else {
        return Err(SessionErr::NoMem);
    };
    let Ok(connection) = Connection::new(alloc, remote) else {
        return Err(SessionErr::NoMem);
    };
    let mut connection = connection;
    ended(connection.serve(hands, MOST_INPUT, reader, writer))
}

/// Opens a debugger on an image and a trace, and answers the packets that gdb sends. What can't be opened is announced to `faults` in the
/// lines of a session, and nothing is read.
///
/// # Errors
/// `NoMem` before a byte is read or written; `Read` and `Write` only where that device failed; `TooLong`.
pub fn connect<H: Hands, R: Source, W: Sink, E: Sink>(
    hands: &H,
    image: &[u8],
    trace: &[u8],
    reader: &mut R,
    writer: &mut W,
    faults: &mut E,
) -> Result<Ended, SessionErr>
    requires reads { R.broken reader.old ≡ false }
    requires writes { W.broken writer.old ≡ false }
    // Where no device fails and memory doesn't run out, the bytes that were read lead to the result and to what was written, and neither
    // device has failed.
    ensures ended { IfServed result (ReadsUpTo most_input (R.left reader.old) (R.left reader.new)
        (Connected image.now trace.now result (W.written writer.old) (W.written writer.new))) }
    ensures works { IfServed result ((R.broken reader.new ≡ false) × (W.broken writer.new ≡ false)) }
    // If the reader makes its bytes known, all of them together lead to it.
    ensures known { IfServed result (IfSome (R.left reader.old)
        (Connected image.now trace.now result (W.written writer.old) (W.written writer.new))) }
    // Where nothing was opened, nothing was read or written, and what refuses it was announced, in part if `faults` has failed.
    ensures unread { IfRefused result ((reader.new ≡ reader.old) × (writer.new ≡ writer.old)) }
    ensures announced { IfRefused result (Announced image.now trace.now result (λ text.
        AppendsPrefix (E.written faults.old) (E.written faults.new) text
        × (E.broken faults.new ≡ false → Appends (E.written faults.old) (E.written faults.new) text))) }
    ensures quiet { IfNotRefused result (faults.new ≡ faults.old) }
    // Where memory runs out, nothing was read or written.
    ensures no_memory { result ≡ Err SessionErr.NoMem → (reader.new ≡ reader.old) × (writer.new ≡ writer.old) }
    // After a failed read, the answers to all that was read, none of which ends the connection.
    ensures read { result ≡ Err SessionErr.Read → (R.broken reader.new ≡ true) × (W.broken writer.new ≡ false)
        × ReadsUpTo most_input (R.left reader.old) (R.left reader.new)
        (RepliedWhole image.now trace.now (W.written writer.old) (W.written writer.new)) }
    // After a failed write, the answers to all but the last item, and a prefix of that one's: a reply is written before a byte after its
    // packet is read.
    ensures write { result ≡ Err SessionErr.Write → (R.broken reader.new ≡ false) × (W.broken writer.new ≡ true)
        × ReadsUpTo most_input (R.left reader.old) (R.left reader.new)
        (RepliedInPart image.now trace.now (W.written writer.old) (W.written writer.new)) }
{
    let Ok(opened) = open(hands, image, trace) else {
        return Err(SessionErr::NoMem);
    };
    match opened {
        Opened::Ready(debugger) => serve(hands, debugger, reader, writer),
        refused => {
            let _ = announce(&refused, faults);
            Ok(refusal_of(&refused))
        }
    }
}
