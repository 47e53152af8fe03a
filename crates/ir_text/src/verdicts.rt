//! The lines of a verdict.

ghost use Rattle.std.specs.Prelude.{◌≡◌, ◌≤◌, ◌+◌, ◌++◌, length, codes, decimal, unwrap_or};
ghost use Rattle.arrayvec.specs.ArrayVec.{array_vec_len};
ghost use Rattle.ir_text.specs.Texts.{thread_verdict_text, threads_text, verdict_text};
ghost use Rattle.ir_text.specs.Parts.{thread_line, header_text, incoherent_text};
ghost use Rattle.ir_stream.specs.Writing.{WritesText};

use crate::text::{Text, put_number};
use ir_fit::{Cause, HeaderCause, Verdict};
use ir_runs::ThreadVerdict;
use ir_stream::{DeviceErr, Sink, append, write_all};
use itoa::Buffer;

// Puts at the end in what the header of a trace isn't the guest's.
fn put_header(text: &mut Text, cause: HeaderCause)
    requires { array_vec_len text.old ≤ 512 }
    ensures text { text.new.items ≡ text.old.items ++ header_text cause }
    ensures len { array_vec_len text.new ≤ array_vec_len text.old + 128 }
{
    put_number(text, b"header differs ", cause.number() as u64);
}

// Puts at the end the first event that breaks coherence.
fn put_incoherent(text: &mut Text, thread: u8, event: u32, cause: Cause)
    requires { array_vec_len text.old ≤ 512 }
    ensures text { text.new.items ≡ text.old.items ++ incoherent_text thread event cause }
    ensures len { array_vec_len text.new ≤ array_vec_len text.old + 128 }
{
    put_number(text, b"incoherent thread ", thread as u64);
    put_number(text, b" event ", event as u64);
    put_number(text, b" cause ", cause.number() as u64);
}

fn put_disagrees(text: &mut Text, event: u32, step: u64)
    requires { array_vec_len text.old ≤ 768 }
    ensures text { text.new.items ≡ text.old.items ++ (codes " disagrees event " ++ decimal event ++ codes " step " ++ decimal step) }
    ensures len { array_vec_len text.new ≤ array_vec_len text.old + 64 }
{
    put_number(text, b" disagrees event ", event as u64);
    put_number(text, b" step ", step);
}

fn put_verdict(text: &mut Text, verdict: ThreadVerdict)
    requires { array_vec_len text.old ≤ 768 }
    ensures text { text.new.items ≡ text.old.items ++ thread_verdict_text verdict }
    ensures len { array_vec_len text.new ≤ array_vec_len text.old + 64 }
{
    match verdict {
        ThreadVerdict::Same => append(text, b" same"),
        ThreadVerdict::Disagrees { event, step } => put_disagrees(text, event, step),
        ThreadVerdict::Starves { event } => put_number(text, b" starves event ", event as u64),
    }
}

// Puts the line of a thread at the end.
fn put_thread(text: &mut Text, thread: u64, verdict: ThreadVerdict)
    requires { array_vec_len text.old ≤ 512 }
    ensures { text.new.items ≡ text.old.items ++ thread_line thread verdict }
{
    put_number(text, b"thread ", thread);
    put_verdict(text, verdict);
    append(text, b"\n");
}

/// A line of words and the number of a fault.
pub fn refusal_line(words: &[u8], number: Option<u8>) -> Text
    requires { length words.now ≤ 256 }
    ensures { result.items ≡ words.now ++ decimal (unwrap_or number 0) ++ codes "\n" }
{
    let mut text = Text::new();
    let mut buffer = Buffer::new();
    append(&mut text, words);
    append(&mut text, buffer.format(number.unwrap_or(0)).as_bytes());
    append(&mut text, b"\n");
    text
}

// The line of a header that isn't the guest's.
fn header_line(cause: HeaderCause) -> Text
    ensures { result.items ≡ header_text cause ++ codes "\n" }
{
    let mut text = Text::new();
    put_header(&mut text, cause);
    append(&mut text, b"\n");
    text
}

// The line of the first event that breaks coherence.
fn incoherent_line(thread: u8, event: u32, cause: Cause) -> Text
    ensures { result.items ≡ incoherent_text thread event cause ++ codes "\n" }
{
    let mut text = Text::new();
    put_incoherent(&mut text, thread, event, cause);
    append(&mut text, b"\n");
    text
}

// Writes a line for each thread.
fn write_threads<W: Sink>(verdicts: &[ThreadVerdict], writer: &mut W) -> Result<(), DeviceErr>
    ensures { WritesText W.written W.broken writer.old writer.new (threads_text 0 verdicts.now) result }
{
    for t in 0..verdicts.len() {
        let mut text = Text::new();
        put_thread(&mut text, t as u64, verdicts[t]);
        write_all(writer, text.as_slice())?;
    }
    Ok(())
}

/// Writes the lines of a verdict.
pub fn write_verdict<W: Sink>(verdict: &Verdict, writer: &mut W) -> Result<(), DeviceErr>
    ensures { WritesText W.written W.broken writer.old writer.new (verdict_text verdict.now) result }
{
    match verdict {
        Verdict::Header(cause) => write_all(writer, header_line(*cause).as_slice()),
        Verdict::Incoherent {
            thread,
            event,
            cause,
        } => write_all(writer, incoherent_line(*thread, *event, *cause).as_slice()),
        Verdict::Threads(verdicts) => write_threads(verdicts.as_slice(), writer),
    }
}
