//! What loads read and stores write.

ghost use Rattle.std.specs.Prelude.{◌≡◌, ◌≤◌, ◌<◌, ◌+◌, ◌%◌, ◌^◌, length};
ghost use Rattle.ir_isa.specs.Fields.{sign_extended};
ghost use Rattle.ir_mach.specs.Execution.{low_32, memory_number, extended, loaded, store_width};
ghost use Rattle.ir_image.specs.Guest.{word_at_pc};
ghost use Rattle.ir_mach.specs.Core.{memory_start, memory_size};
ghost use Rattle.ir_mach.specs.Effects.{offset_in_memory, overwritten};

use byteorder::{ByteOrder, LittleEndian};
use ir_image::{CODE_START, Code, MEMORY_SIZE, MEMORY_START};
use ir_isa::{LoadOp, StoreOp};

// The place of an address in private memory, if `width` bytes from it on lie there.
pub fn memory_offset(width: u32, address: u32) -> Option<usize>
    requires { width ≤ 4 }
    ensures { result ≡ offset_in_memory width address }
{
    if address < MEMORY_START || address - MEMORY_START > MEMORY_SIZE - width {
        return None;
    }
    Some((address - MEMORY_START) as usize)
}

// The word of the code in which an address lies.
fn code_word(code: &Code, address: u32) -> Option<u32>
    ensures { result ≡ word_at_pc code.now address }
{
    if address < CODE_START {
        return None;
    }
    code.words()
        .get(((address - CODE_START) / 4) as usize)
        .copied()
}

// The number that one byte at an address encodes, or two or four of them in the functions below, from private memory or the code.
fn byte(code: &Code, memory: &[u8], address: u32) -> Option<u32>
    requires { length memory.now ≡ memory_size }
    ensures { result ≡ memory_number code.now memory.now 1 address }
{
    match memory_offset(1, address) {
        Some(offset) => Some(memory[offset] as u32),
        None => Some((code_word(code, address)? >> (8 * (address % 4))) % 0x100),
    }
}

fn half(code: &Code, memory: &[u8], address: u32) -> Option<u32>
    requires size { length memory.now ≡ memory_size }
    requires even { address % 2 ≡ 0 }
    ensures { result ≡ memory_number code.now memory.now 2 address }
{
    match memory_offset(2, address) {
        Some(offset) => Some(LittleEndian::read_u16(&memory[offset..]) as u32),
        None if address % 4 == 0 => Some(code_word(code, address)? % 0x1_0000),
        None => Some(code_word(code, address)? >> 16),
    }
}

fn word(code: &Code, memory: &[u8], address: u32) -> Option<u32>
    requires size { length memory.now ≡ memory_size }
    requires aligned { address % 4 ≡ 0 }
    ensures { result ≡ memory_number code.now memory.now 4 address }
{
    match memory_offset(4, address) {
        Some(offset) => Some(LittleEndian::read_u32(&memory[offset..])),
        None => code_word(code, address),
    }
}

// A byte or half word whose highest bit is its sign, as a word.
pub fn sign_8(number: u32) -> u32
    requires { number < 2 ^ 8 }
    ensures { result ≡ low_32 (sign_extended 8 number) }
{
    if number < 0x80 {
        number
    } else {
        number + 0xffff_ff00
    }
}

pub fn sign_16(number: u32) -> u32
    requires { number < 2 ^ 16 }
    ensures { result ≡ low_32 (sign_extended 16 number) }
{
    if number < 0x8000 {
        number
    } else {
        number + 0xffff_0000
    }
}

// What a load gives.
pub fn load(op: LoadOp, code: &Code, memory: &[u8], address: u32) -> Option<u32>
    requires { length memory.now ≡ memory_size }
    ensures { result ≡ loaded op code.now memory.now address }
{
    match op {
        LoadOp::Lb => Some(sign_8(byte(code, memory, address)?)),
        LoadOp::Lbu => byte(code, memory, address),
        LoadOp::Lh if address % 2 == 0 => Some(sign_16(half(code, memory, address)?)),
        LoadOp::Lhu if address % 2 == 0 => half(code, memory, address),
        LoadOp::Lw if address % 4 == 0 => word(code, memory, address),
        _ => None,
    }
}

// The lowest bytes of the value are written from the offset on.
#[inline(always)]
pub fn overwrite(op: StoreOp, memory: &mut [u8], offset: usize, value: u32)
    requires { offset + store_width op ≤ length memory.old }
    ensures { memory.new ≡ overwritten (store_width op) offset value memory.old }
{
    let bytes = value.to_le_bytes();
    match op {
        StoreOp::Sb => memory[offset] = bytes[0],
        StoreOp::Sh => memory[offset..offset + 2].copy_from_slice(&bytes[..2]),
        StoreOp::Sw => memory[offset..offset + 4].copy_from_slice(&bytes),
    }
}
