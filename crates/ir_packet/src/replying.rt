//! Payloads of replies, into room that was made before.

ghost use Rattle.std.specs.Prelude.{◌≡◌, ◌≤◌, ◌+◌, ◌*◌, ◌++◌, length, vec_len, vec_capacity};
ghost use Rattle.ir_packet.specs.Replies.{hex_number_text, reply_text, stop_reason_text, stop_registers, stop_reply_text, words_reply, piece_text, output_reply, signal_text, ended_signal};

use crate::reply::{Reason, Reply, Signal, Stop};
use crate::writing::{put_hex, put_word};

/// The most bytes of a stop reply.
pub const MOST_STOP: usize = 96;

/// The text of a reply that is always the same.
#[tactic(auto, unfolding(crate::specs::Replies::reply_text))]
pub fn reply_text(reply: Reply) -> &'static [u8]
    ensures { result.now ≡ reply_text reply }
{
    match reply {
        Reply::Done => b"OK",
        Reply::Nothing => b"",
        Reply::NotPermitted => b"E01",
        Reply::NoMemory => b"E0C",
        Reply::BadAddress => b"E0E",
        Reply::NoSpace => b"E1C",
        Reply::ReadOnly => b"E.a recording can't be changed",
        Reply::Attached => b"1",
        Reply::Offsets => b"Text=0;Data=0;Bss=0",
        Reply::Motions => b"vCont;c;C;s;S;r",
    }
}

/// Puts bytes at the end.
pub fn put_text(out: &mut Vec<u8>, text: &[u8])
    requires { vec_len out.old + length text.now ≤ vec_capacity out.old }
    ensures bytes { out.new.items ≡ out.old.items ++ text.now }
    ensures len { vec_len out.new ≡ vec_len out.old + length text.now }
    ensures capacity { vec_capacity out.new ≡ vec_capacity out.old }
{
    for byte in text {
        out.push_reserved(*byte);
    }
}

/// Puts the eight lower-case digits of a number at the end, the highest first.
pub fn put_number(out: &mut Vec<u8>, number: u32)
    requires { vec_len out.old + 8 ≤ vec_capacity out.old }
    ensures bytes { out.new.items ≡ out.old.items ++ hex_number_text number }
    ensures len { vec_len out.new ≡ vec_len out.old + 8 }
    ensures capacity { vec_capacity out.new ≡ vec_capacity out.old }
{
    put_hex(out, &number.to_be_bytes());
}

// Puts why a thread stopped at the end.
#[tactic(auto, unfolding(crate::specs::Replies::stop_reason_text))]
fn put_reason(out: &mut Vec<u8>, reason: Reason)
    requires { vec_len out.old + 16 ≤ vec_capacity out.old }
    ensures bytes { out.new.items ≡ out.old.items ++ stop_reason_text reason }
    ensures len { vec_len out.new ≤ vec_len out.old + 16 }
    ensures capacity { vec_capacity out.new ≡ vec_capacity out.old }
{
    match reason {
        Reason::Step => {}
        Reason::SoftwareBreak => put_text(out, b"swbreak:;"),
        Reason::HardwareBreak => put_text(out, b"hwbreak:;"),
        Reason::Watch(address) => {
            put_text(out, b"watch:");
            put_number(out, address);
            put_text(out, b";");
        }
        Reason::End => put_text(out, b"replaylog:end;"),
        Reason::Begin => put_text(out, b"replaylog:begin;"),
        Reason::Ended(_) => {}
        Reason::Waits => {}
    }
}

// The signal by which a thread is said to have ended, by its number in gdb's protocol.
fn ended_signal(signal: Signal) -> &'static [u8]
    ensures value { result.now ≡ ended_signal signal }
    ensures len { length result.now ≡ 3 }
{
    match signal {
        Signal::Illegal => b"T04",
        Signal::Aborted => b"T06",
        Signal::Misaligned => b"T0a",
        Signal::Outside => b"T0b",
        Signal::BadCall => b"T0c",
        Signal::Terminated => b"T0f",
        Signal::TooLong => b"T18",
        Signal::TooLarge => b"T19",
    }
}

// The signal of a stop.
fn signal_text(interrupted: bool, reason: Reason) -> &'static [u8]
    ensures value { result.now ≡ signal_text interrupted reason }
    ensures len { length result.now ≡ 3 }
{
    match reason {
        _ if interrupted => b"T02",
        Reason::Waits => b"T24",
        Reason::Ended(signal) => ended_signal(signal),
        _ => b"T05",
    }
}

// Puts the registers of a stop at the end.
#[tactic(auto, unfolding(crate::specs::Replies::stop_registers))]
fn put_stop_registers(out: &mut Vec<u8>, stop: &Stop)
    requires { vec_len out.old + 48 ≤ vec_capacity out.old }
    ensures bytes { out.new.items ≡ out.old.items ++ stop_registers stop.now }
    ensures len { vec_len out.new ≡ vec_len out.old + 48 }
    ensures capacity { vec_capacity out.new ≡ vec_capacity out.old }
{
    put_text(out, b"20:");
    put_word(out, stop.pc);
    put_text(out, b";02:");
    put_word(out, stop.sp);
    put_text(out, b";08:");
    put_word(out, stop.fp);
    put_text(out, b";01:");
    put_word(out, stop.ra);
    put_text(out, b";");
}

/// Puts a stop of a thread at the end.
#[tactic(auto, unfolding(crate::specs::Replies::stop_reply_text))]
pub fn put_stop(out: &mut Vec<u8>, stop: &Stop)
    requires { vec_len out.old + 96 ≤ vec_capacity out.old }
    ensures bytes { out.new.items ≡ out.old.items ++ stop_reply_text stop.now }
    ensures len { vec_len out.new ≤ vec_len out.old + 96 }
    ensures capacity { vec_capacity out.new ≡ vec_capacity out.old }
{
    put_text(out, signal_text(stop.interrupted, stop.reason));
    put_text(out, b"thread:");
    put_number(out, stop.thread);
    put_text(out, b";");
    put_reason(out, stop.reason);
    put_stop_registers(out, stop);
}

/// Puts registers at the end.
#[tactic(auto, unfolding(crate::specs::Replies::words_reply))]
pub fn put_words(out: &mut Vec<u8>, words: &[u32])
    requires { vec_len out.old + 8 * length words.now ≤ vec_capacity out.old }
    ensures bytes { out.new.items ≡ out.old.items ++ words_reply words.now }
    ensures len { vec_len out.new ≡ vec_len out.old + 8 * length words.now }
    ensures capacity { vec_capacity out.new ≡ vec_capacity out.old }
{
    for word in words {
        put_word(out, *word);
    }
}

/// Puts a piece of a text at the end, at most `most` bytes from `from` on: `m`, or `l` if the text ends with it.
#[tactic(auto, unfolding(crate::specs::Replies::piece_text))]
pub fn put_piece(out: &mut Vec<u8>, text: &[u8], from: u32, most: u32)
    requires { vec_len out.old + length text.now + 1 ≤ vec_capacity out.old }
    ensures bytes { out.new.items ≡ out.old.items ++ piece_text text.now from most }
    ensures capacity { vec_capacity out.new ≡ vec_capacity out.old }
{
    let from = from as usize;
    let most = most as usize;
    if from + most < text.len() {
        put_text(out, b"m");
        put_text(out, &text[from..from + most]);
        return;
    }
    put_text(out, b"l");
    if from < text.len() {
        put_text(out, &text[from..]);
    }
}

/// Puts what a session prints at the end.
#[tactic(auto, unfolding(crate::specs::Replies::output_reply))]
pub fn put_output(out: &mut Vec<u8>, bytes: &[u8])
    requires { vec_len out.old + 2 * length bytes.now + 1 ≤ vec_capacity out.old }
    ensures bytes { out.new.items ≡ out.old.items ++ output_reply bytes.now }
    ensures len { vec_len out.new ≡ vec_len out.old + 2 * length bytes.now + 1 }
    ensures capacity { vec_capacity out.new ≡ vec_capacity out.old }
{
    put_text(out, b"O");
    put_hex(out, bytes);
}
