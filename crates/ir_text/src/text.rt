//! The texts of answers.

ghost use Rattle.std.specs.Prelude.{◌≡◌, ◌≤◌, ◌<◌, ◌+◌, ◌++◌, length, decimal};
ghost use Rattle.arrayvec.specs.ArrayVec.{array_vec_len};
ghost use Rattle.ir_isa.specs.Fields.{register_name};
ghost use Rattle.ir_text.specs.Texts.{hex_word, reason_text, refusal_text, registers_text, core_text, number_line};
ghost use Rattle.ir_text.specs.Parts.{register_text};
ghost use Rattle.ir_stream.specs.Writing.{WritesText};

use arrayvec::ArrayVec;
use ir_command::Refusal;
use ir_isa::reg_name;
use ir_mach::{Mach, REGISTERS};
use ir_stream::{DeviceErr, Sink, append, write_all};
use itoa::Buffer;

/// The most bytes of an answer.
pub const ROOM: usize = 1024;

/// An answer that is put together before it is written.
pub type Text = ArrayVec<u8, ROOM>;

/// Puts a word in eight digits at the end.
pub fn put_word(text: &mut Text, word: u32)
    requires { array_vec_len text.old + 8 ≤ ROOM }
    ensures text { text.new.items ≡ text.old.items ++ hex_word word }
    ensures len { array_vec_len text.new ≡ array_vec_len text.old + 8 }
{
    let mut digits = [0; 8];
    let _ = hex::encode_to_slice(word.to_be_bytes(), &mut digits);
    append(text, &digits);
}

/// Puts words and a number at the end.
pub fn put_number(text: &mut Text, words: &[u8], number: u64)
    requires { array_vec_len text.old + length words.now + 20 ≤ ROOM }
    ensures text { text.new.items ≡ text.old.items ++ (words.now ++ decimal number) }
    ensures len { array_vec_len text.new ≤ array_vec_len text.old + length words.now + 20 }
{
    let mut buffer = Buffer::new();
    append(text, words);
    append(text, buffer.format(number).as_bytes());
}

fn reason(refusal: Refusal) -> &'static [u8]
    ensures value { result.now ≡ reason_text refusal }
    ensures short { length result.now ≤ 16 }
{
    match refusal {
        Refusal::UnknownCommand => b"unknown command",
        Refusal::BadArgument => b"bad argument",
        Refusal::NoSuchThread => b"no such thread",
        Refusal::NoSuchObject => b"no such object",
        Refusal::NoSuchNumber => b"no such number",
        Refusal::BadAddress => b"bad address",
        Refusal::LineTooLong => b"line too long",
        Refusal::NoMemory => b"no memory",
        Refusal::Full => b"full",
    }
}

// Puts a refusal's line at the end.
fn put_refusal(text: &mut Text, refusal: Refusal)
    requires { array_vec_len text.old ≤ 256 }
    ensures { text.new.items ≡ text.old.items ++ refusal_text refusal }
{
    let mut buffer = Buffer::new();
    append(text, b"refused ");
    append(text, buffer.format(refusal.number()).as_bytes());
    append(text, b" ");
    append(text, reason(refusal));
    append(text, b"\n");
}

fn name(number: u8) -> &'static [u8]
    requires { number < 32 }
    ensures value { result.now ≡ register_name number }
    ensures short { length result.now ≤ 4 }
{
    reg_name(number).as_bytes()
}

fn put_register(text: &mut Text, mach: &Mach, number: u8)
    requires register { number < 32 }
    requires room { array_vec_len text.old + 14 ≤ 512 }
    ensures text { text.new.items ≡ text.old.items ++ register_text mach.now number }
    ensures len { array_vec_len text.new ≤ array_vec_len text.old + 14 }
{
    append(text, name(number));
    append(text, b"=");
    put_word(text, mach.reg(number));
    append(text, if number % 4 == 3 { b"\n" } else { b" " });
}

fn put_registers(text: &mut Text, mach: &Mach)
    requires { array_vec_len text.old ≤ 12 }
    ensures { text.new.items ≡ text.old.items ++ registers_text mach.now 32 }
{
    for number in 0..REGISTERS {
        put_register(text, mach, number);
    }
}

// Puts the lines of pc and the registers into an empty text.
fn put_machine(text: &mut Text, mach: &Mach)
    requires { array_vec_len text.old ≡ 0 }
    ensures { text.new.items ≡ text.old.items ++ core_text mach.now }
{
    append(text, b"pc ");
    put_word(text, mach.pc());
    append(text, b"\n");
    put_registers(text, mach);
}

/// Writes a refusal's line. Takes no memory.
pub fn write_refusal<W: Sink>(refusal: Refusal, writer: &mut W) -> Result<(), DeviceErr>
    ensures { WritesText W.written W.broken writer.old writer.new (refusal_text refusal) result }
{
    let mut text = Text::new();
    put_refusal(&mut text, refusal);
    write_all(writer, text.as_slice())
}

/// Writes words and a number in a line.
pub fn write_number<W: Sink>(words: &[u8], number: u32, writer: &mut W) -> Result<(), DeviceErr>
    requires { length words.now ≤ 256 }
    ensures { WritesText W.written W.broken writer.old writer.new (number_line words.now number) result }
{
    let mut text = Text::new();
    put_number(&mut text, words, number as u64);
    append(&mut text, b"\n");
    write_all(writer, text.as_slice())
}

/// Writes pc and the registers. Takes no memory.
pub fn write_machine<W: Sink>(mach: &Mach, writer: &mut W) -> Result<(), DeviceErr>
    ensures { WritesText W.written W.broken writer.old writer.new (core_text mach.now) result }
{
    let mut text = Text::new();
    put_machine(&mut text, mach);
    write_all(writer, text.as_slice())
}
