//! The lines of bytes.

ghost use Rattle.std.specs.Prelude.{◌≡◌, ◌≤◌, ◌+◌, ◌*◌, ◌++◌, ◌^◌, length, codes, unwrap_or};
ghost use Rattle.arrayvec.specs.ArrayVec.{array_vec_len};
ghost use Rattle.hex.specs.Hex.{encode_lower};
ghost use Rattle.ir_mach.specs.Core.{memory_size};
ghost use Rattle.ir_mach.specs.Execution.{byte_at};
ghost use Rattle.ir_stream.specs.Writing.{WritesText};
ghost use Rattle.ir_text.specs.Texts.{hex_word, bytes_from, number_line, memory_text, output_text};

use crate::next::code_word;
use crate::room::{FULL, make_room};
use crate::text::{ROOM, Text, put_number, put_word};
use arrayvec::ArrayVec;
use ir_command::MOST_SHOWN;
use ir_image::{Code, MEMORY_START};
use ir_stream::{DeviceErr, Sink, append, write_all};

// How many bytes of memory are in a line.
const MEMORY_LINE: usize = 16;

// How many bytes of output are in a line.
const OUTPUT_LINE: usize = 32;

// Bytes in hexadecimal.
fn put_bytes(text: &mut Text, bytes: &[u8])
    requires few { length bytes.now ≤ 32 }
    requires room { array_vec_len text.old + 64 ≤ ROOM }
    ensures text { text.new.items ≡ text.old.items ++ encode_lower bytes.now }
    ensures len { array_vec_len text.new ≡ array_vec_len text.old + 2 * length bytes.now }
{
    let mut digits = [0; 64];
    let digits = &mut digits[..2 * bytes.len()];
    let _ = hex::encode_to_slice(bytes, digits);
    append(text, digits);
}

fn put_memory_line(text: &mut Text, address: u32, bytes: &[u8])
    requires few { length bytes.now ≤ 16 }
    requires room { array_vec_len text.old ≤ 900 }
    ensures text { text.new.items ≡ text.old.items ++ (hex_word address ++ codes ": " ++ encode_lower bytes.now ++ codes "\n") }
    ensures len { array_vec_len text.new ≤ array_vec_len text.old + 43 }
{
    put_word(text, address);
    append(text, b": ");
    put_bytes(text, bytes);
    append(text, b"\n");
}

// Puts the lines of the bytes from an address on at the end.
fn put_memory(text: &mut Text, address: u32, bytes: &[u8])
    requires room { array_vec_len text.old ≤ 200 }
    requires few { length bytes.now ≤ 256 }
    requires low { address ≤ 2 ^ 31 }
    ensures { text.new.items ≡ text.old.items ++ memory_text address bytes.now }
{
    let mut rest = bytes;
    let mut at = address;
    while !rest.is_empty() {
        let (line, more) = rest.split_at(MEMORY_LINE.min(rest.len()));
        put_memory_line(text, at, line);
        at += MEMORY_LINE as u32;
        rest = more;
    }
}

// The byte at an address of private memory or the code; 0 elsewhere.
fn byte(code: &Code, memory: &[u8], address: u32) -> u8
    requires { length memory.now ≡ memory_size }
    ensures { result ≡ unwrap_or (byte_at code.now memory.now address) 0 }
{
    if address >= MEMORY_START && ((address - MEMORY_START) as usize) < memory.len() {
        return memory[(address - MEMORY_START) as usize];
    }
    match code_word(code, address) {
        Some(word) => ((word >> (8 * (address % 4))) % 0x100) as u8,
        None => 0,
    }
}

fn bytes_from(code: &Code, memory: &[u8], address: u32, size: usize) -> ArrayVec<u8, MOST_SHOWN>
    requires memory { length memory.now ≡ memory_size }
    requires few { size ≤ 256 }
    requires low { address ≤ 2 ^ 31 }
    ensures { result.items ≡ bytes_from code.now memory.now size address }
{
    let mut bytes = ArrayVec::new();
    for place in 0..size {
        append(&mut bytes, &[byte(code, memory, address + place as u32)]);
    }
    bytes
}

/// Writes the lines of `size` bytes from an address on, of private memory or the code. Takes no memory.
pub fn write_memory<W: Sink>(
    code: &Code,
    memory: &[u8],
    address: u32,
    size: usize,
    writer: &mut W,
) -> Result<(), DeviceErr>
    requires memory { length memory.now ≡ memory_size }
    requires few { size ≤ 256 }
    requires low { address ≤ 2 ^ 31 }
    ensures { WritesText W.written W.broken writer.old writer.new (memory_text address (bytes_from code.now memory.now size address)) result }
{
    let mut text = Text::new();
    put_memory(
        &mut text,
        address,
        bytes_from(code, memory, address, size).as_slice(),
    );
    write_all(writer, text.as_slice())
}

fn put_output_line(text: &mut Text, bytes: &[u8])
    requires few { length bytes.now ≤ 32 }
    requires room { array_vec_len text.old ≤ FULL }
    ensures { text.new.items ≡ text.old.items ++ (encode_lower bytes.now ++ codes "\n") }
{
    put_bytes(text, bytes);
    append(text, b"\n");
}

// Puts the first line into an empty text: how many bytes.
fn put_count(text: &mut Text, count: usize)
    requires { array_vec_len text.old ≡ 0 }
    ensures { text.new.items ≡ text.old.items ++ number_line (codes "out ") count }
{
    put_number(text, b"out ", count as u64);
    append(text, b"\n");
}

/// Writes the lines of what a thread has printed. Takes no memory.
pub fn write_output<W: Sink>(printed: &[u8], writer: &mut W) -> Result<(), DeviceErr>
    ensures { WritesText W.written W.broken writer.old writer.new (output_text printed.now) result }
{
    let mut text = Text::new();
    put_count(&mut text, printed.len());
    let mut rest = printed;
    while !rest.is_empty() {
        let (line, more) = rest.split_at(OUTPUT_LINE.min(rest.len()));
        make_room(&mut text, writer)?;
        put_output_line(&mut text, line);
        rest = more;
    }
    write_all(writer, text.as_slice())
}
