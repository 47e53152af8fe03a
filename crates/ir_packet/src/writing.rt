//! Packets and hexadecimal as they are written, into room that was made before.

ghost use Rattle.std.specs.Prelude.{◌≡◌, ◌≤◌, ◌+◌, ◌*◌, ◌%◌, ◌++◌, ◌∷◌, ℕ, List, length, sum, vec_len, vec_capacity};
ghost use Rattle.hex.specs.Hex.{encode_lower};
ghost use Rattle.ir_packet.specs.Packets.{digits_of, escaped, needs_escape, packet_of, word_bytes};

use crate::raw::ESCAPE;

const HEX_DIGITS: [u8; 16] = *b"0123456789abcdef";

fn needs_escape(byte: u8) -> bool
    ensures { result ≡ needs_escape byte }
{
    matches!(byte, b'#' | b'$' | b'}' | b'*')
}

// Puts a byte of a payload at the end, and gives the sum with what it is written as.
#[tactic(auto, unfolding(crate::specs::Packets::escaped))]
fn put_escaped(out: &mut Vec<u8>, byte: u8, before: u8) -> u8
    requires room { vec_len out.old + 2 ≤ vec_capacity out.old }
    ensures bytes { (rest : List ℕ) → out.new.items ++ escaped rest ≡ out.old.items ++ escaped (byte ∷ rest) }
    ensures sum { (rest : List ℕ) → (result + sum (escaped rest)) % 256 ≡ (before + sum (escaped (byte ∷ rest))) % 256 }
    ensures len { vec_len out.new ≤ vec_len out.old + 2 }
    ensures capacity { vec_capacity out.new ≡ vec_capacity out.old }
{
    if needs_escape(byte) {
        out.push_reserved(ESCAPE);
        out.push_reserved(byte ^ 0x20);
        return before.wrapping_add(ESCAPE).wrapping_add(byte ^ 0x20);
    }
    out.push_reserved(byte);
    before.wrapping_add(byte)
}

fn put_digits(out: &mut Vec<u8>, byte: u8)
    requires { vec_len out.old + 2 ≤ vec_capacity out.old }
    ensures bytes { out.new.items ≡ out.old.items ++ digits_of byte }
    ensures len { vec_len out.new ≡ vec_len out.old + 2 }
    ensures capacity { vec_capacity out.new ≡ vec_capacity out.old }
{
    out.push_reserved(HEX_DIGITS[usize::from(byte / 16)]);
    out.push_reserved(HEX_DIGITS[usize::from(byte % 16)]);
}

/// Puts a payload at the end, as a packet.
pub fn put_packet(out: &mut Vec<u8>, payload: &[u8])
    requires { vec_len out.old + 2 * length payload.now + 4 ≤ vec_capacity out.old }
    ensures bytes { out.new.items ≡ out.old.items ++ packet_of payload.now }
    ensures len { vec_len out.new ≤ vec_len out.old + 2 * length payload.now + 4 }
    ensures capacity { vec_capacity out.new ≡ vec_capacity out.old }
{
    out.push_reserved(b'$');
    let mut sum = 0;
    for byte in payload {
        sum = put_escaped(out, *byte, sum);
    }
    out.push_reserved(b'#');
    put_digits(out, sum);
}

#[tactic(auto, unfolding(hex::specs::Hex::encode_with))]
/// Puts two lower-case digits for each byte at the end.
pub fn put_hex(out: &mut Vec<u8>, bytes: &[u8])
    requires { vec_len out.old + 2 * length bytes.now ≤ vec_capacity out.old }
    ensures bytes { out.new.items ≡ out.old.items ++ encode_lower bytes.now }
    ensures len { vec_len out.new ≡ vec_len out.old + 2 * length bytes.now }
    ensures capacity { vec_capacity out.new ≡ vec_capacity out.old }
{
    for byte in bytes {
        put_digits(out, *byte);
    }
}

/// Puts the eight lower-case digits of a word at the end, those of its lowest byte first.
pub fn put_word(out: &mut Vec<u8>, word: u32)
    requires { vec_len out.old + 8 ≤ vec_capacity out.old }
    ensures bytes { out.new.items ≡ out.old.items ++ encode_lower (word_bytes word) }
    ensures len { vec_len out.new ≡ vec_len out.old + 8 }
    ensures capacity { vec_capacity out.new ≡ vec_capacity out.old }
{
    put_hex(out, &word.to_le_bytes());
}
