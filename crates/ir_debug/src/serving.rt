//! The lines of a session, and their answers.

ghost use Rattle.std.specs.Prelude.{◌≡◌, ◌≢◌, true, false, [], IfOk, IfErr, IfSome, IfNone, OnErr, Ok, Err, None};
ghost use Rattle.std.specs.Io.KnownBytes.{IsAtEnd};
ghost use Rattle.ir_stream.specs.Answers.{split_lines, lines_of, last_line, RepliedPrefix, through, some_quits, ReadsUpTo};
ghost use Rattle.ir_stream.specs.Writing.{WritesOrFails};
ghost use Rattle.ir_stream.specs.Written.{Wrote, WroteInPart, Replied};
ghost use Rattle.ir_stream.specs.Endings.{flow_after, served_after, IfEnded, LeadsTo};
ghost use Rattle.ir_debug.specs.Machine.{Replies, quits, quits_by};
ghost use Rattle.ir_debug.specs.Debugging.{IsAnswer};
ghost use Rattle.ir_debug.specs.Session.{ReadsThrough, ended_by};

use crate::answer::Answer;
use crate::answering::write_answer;
use crate::debugger::Debugger;
use arrayvec::ArrayVec;
use ir_command::{Command, Refusal, parse_line};
use ir_object::Hands;
use ir_stream::{DeviceErr, Fault, Flow, KEPT, Next, Served, Sink, Source, keep, next_byte};

// Whether the session ends with what a line asks.
fn flow_of(asked: &Result<Option<Command>, Refusal>) -> Flow
    ensures { result ≡ flow_after (quits_by asked.now) }
{
    match asked {
        Ok(Some(Command::Quit)) => Flow::Quits,
        _ => Flow::Goes,
    }
}

// Carries out what a line asks, if it has words.
fn carry_out<H: Hands>(
    hands: &H,
    debugger: &mut Debugger,
    asked: &Result<Option<Command>, Refusal>,
) -> Option<Answer>
    ensures none { IfNone result ((asked.now ≡ Ok None) × (debugger.new ≡ debugger.old)) }
    ensures some { IfSome result (IsAnswer asked.now debugger.old debugger.new) }
{
    match asked {
        Ok(None) => None,
        Ok(Some(command)) => Some(debugger.command(hands, command)),
        Err(refusal) => Some(debugger.refuse(*refusal)),
    }
}

/// Answers a line. It comes without its line feed, and with the carriage return that may be before it.
#[tactic(auto, unfolding(crate::specs::Machine::quits))]
pub fn respond<H: Hands, W: Sink>(
    hands: &H,
    debugger: &mut Debugger,
    line: &[u8],
    writer: &mut W,
) -> Result<Flow, DeviceErr>
    ensures writes { WritesOrFails W.broken writer.old writer.new
        (Replied Replies debugger.old.desk line.now debugger.new.desk (W.written writer.old) (W.written writer.new))
        (RepliedPrefix Replies debugger.old.desk line.now (W.written writer.old) (W.written writer.new)) result }
    ensures flow { IfOk result (λ f. f ≡ flow_after (quits line.now)) }
{
    let asked = parse_line(line);
    let Some(answer) = carry_out(hands, debugger, &asked) else {
        return Ok(Flow::Goes);
    };
    match write_answer(debugger, &answer, writer) {
        Ok(()) => Ok(flow_of(&asked)),
        Err(error) => Err(error),
    }
}

// Answers what the input ended in, if it isn't empty.
fn finish<H: Hands, W: Sink>(
    hands: &H,
    line: &[u8],
    writer: &mut W,
    debugger: &mut Debugger,
) -> Result<Served, Fault>
    ensures writes { WritesOrFails W.broken writer.old writer.new
        (Wrote Replies debugger.old.desk (last_line line.now) (W.written writer.old) (W.written writer.new))
        (RepliedPrefix Replies debugger.old.desk line.now (W.written writer.old) (W.written writer.new)) result }
    ensures served { IfOk result (λ e. e ≡ served_after (some_quits quits (last_line line.now))) }
    ensures fault { IfErr result (λ f. f ≡ Fault.Write) }
    ensures some { OnErr result (line.now ≢ []) }
{
    if line.is_empty() {
        return Ok(Served::InputEnd);
    }
    match respond(hands, debugger, line, writer) {
        Ok(Flow::Goes) => Ok(Served::InputEnd),
        Ok(Flow::Quits) => Ok(Served::Quit),
        Err(_) => Err(Fault::Write),
    }
}

/// Answers the lines that the reader gives, until one quits, the input ends, a device fails, or `limit` bytes were
/// read. A last line without a line feed counts where the input ends before the limit. A line that is unfinished at the
/// limit has no answer.
pub fn serve<H: Hands, R: Source, W: Sink>(
    hands: &H,
    limit: u64,
    reader: &mut R,
    writer: &mut W,
    debugger: &mut Debugger,
) -> Result<Served, Fault>
    requires reads { R.broken reader.old ≡ false }
    requires writes { W.broken writer.old ≡ false }
    // Where no device fails, the bytes that were read lead to the result, with machines between the lines
    // that count, and neither device has failed.
    ensures ended { IfEnded result (ReadsUpTo limit (R.left reader.old) (R.left reader.new)
        (LeadsTo Replies quits debugger.old.desk limit result (W.written writer.old) (W.written writer.new))) }
    ensures works { IfEnded result ((R.broken reader.new ≡ false) × (W.broken writer.new ≡ false)) }
    // If the reader makes its bytes known, all of them together lead to it.
    ensures known { IfEnded result (IfSome (R.left reader.old)
        (LeadsTo Replies quits debugger.old.desk limit result (W.written writer.old) (W.written writer.new))) }
    // No byte was read after the line that quits, and if the input ended the reader is at its end.
    ensures last { IfOk (ended_by result) (λ e. ReadsUpTo limit (R.left reader.old) (R.left reader.new) (ReadsThrough e (R.left reader.new))) }
    // After a failed read, the answers to the lines that were read whole, none of which quits.
    ensures read { result ≡ Err Fault.Read → (R.broken reader.new ≡ true) × (W.broken writer.new ≡ false)
        × ReadsUpTo limit (R.left reader.old) (R.left reader.new) (λ consumed. (some_quits quits (split_lines consumed).whole ≡ false)
        × Wrote Replies debugger.old.desk (split_lines consumed).whole (W.written writer.old) (W.written writer.new)) }
    // After a failed write, the answers to the lines but the last, and a prefix of that one's: an answer is written before a
    // byte after its line is read. None but the last may quit, and it is unfinished only at the end of the input.
    ensures write { result ≡ Err Fault.Write → (R.broken reader.new ≡ false) × (W.broken writer.new ≡ true)
        × ReadsUpTo limit (R.left reader.old) (R.left reader.new) (λ consumed. (through quits (lines_of consumed) ≡ lines_of consumed)
        × ((split_lines consumed).rest ≢ [] → IsAtEnd (R.left reader.new))
        × WroteInPart Replies debugger.old.desk (lines_of consumed) (W.written writer.old) (W.written writer.new)) }
{
    let mut line = ArrayVec::<u8, KEPT>::new();
    for taken in 0..limit {
        match next_byte(reader) {
            Next::Failed => return Err(Fault::Read),
            Next::End => return finish(hands, line.as_slice(), writer, debugger),
            Next::Byte(byte) => {
                if byte != b'\n' {
                    keep(&mut line, byte);
                    continue;
                }
                match respond(hands, debugger, line.as_slice(), writer) {
                    Ok(Flow::Goes) => line.clear(),
                    Ok(Flow::Quits) => return Ok(Served::Quit),
                    Err(_) => return Err(Fault::Write),
                }
            }
        }
    }
    Err(Fault::TooLong)
}
