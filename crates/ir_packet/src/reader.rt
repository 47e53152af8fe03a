//! A reader of a stream, one byte after the other.

ghost use Rattle.std.specs.Prelude.{◌≡◌, ◌≤◌, ◌∷◌, [], ◌<◌, length, vec_len, vec_capacity, IfOk, Some, None};
ghost use Rattle.ir_packet.specs.Packets.{two_digits};
ghost use Rattle.ir_packet.specs.Stream.{Between, Inside, ended_items, step, byte_items, packet_item};
ghost use Rattle.ir_packet.specs.Reading.{kept, items_found, item_found, read_place};

use crate::found::Found;
use crate::raw::{checksum, two_digits, unescape};
use crate::standing::Standing;
use std::alloc::{AllocError, Global};
use std::marker::Model;

/// The most bytes that may be between `$` and `#`.
pub const MOST_PAYLOAD: usize = 4096;

/// A reader of a stream of bytes in any pieces. It takes no memory once it is made.
#[derive(Debug, Drop)]
pub struct Reader {
    standing: Standing,
    raw: Vec<u8>,
    payload: Vec<u8>,
}

impl Model for Reader {
    ghost use Rattle.std.specs.Prelude.{◌≤◌, vec_len, vec_capacity};
    ghost use Rattle.ir_packet.specs.Reading.{Reading, read_place};

    ghost Value = { Reading };

    ghost view = { λ r. record { place = read_place r.standing r.raw.items; payload = r.payload.items } };

    ghost invariant = { λ r. (vec_len r.raw ≤ 4097) × (4097 ≤ vec_capacity r.raw) × (4096 ≤ vec_capacity r.payload) };
}

impl Reader {
    /// A reader at the beginning of a stream, or the error that there is no memory.
    pub fn new(alloc: Global) -> Result<Self, AllocError>
        ensures { IfOk result (λ reader. reader.place ≡ Between) }
    {
        Ok(Reader {
            standing: Standing::Between,
            raw: Vec::with_capacity(alloc, MOST_PAYLOAD + 1)?,
            payload: Vec::with_capacity(alloc, MOST_PAYLOAD)?,
        })
    }

    /// Takes the next byte of the stream and gives what it ends.
    pub fn take(&mut self, byte: u8) -> Option<Found>
        ensures place { self.new.place ≡ kept (step self.old.place byte) }
        ensures found { items_found result self.new.payload ≡ ended_items self.old.place byte }
    {
        match self.standing {
            Standing::Between => {
                if byte == b'$' {
                    self.raw.clear();
                    self.standing = Standing::Inside;
                }
                alone(byte)
            }
            Standing::Inside => {
                self.standing = inside(&mut self.raw, byte);
                None
            }
            Standing::Summing => {
                self.standing = Standing::Digit(byte);
                None
            }
            Standing::Digit(first) => {
                self.standing = Standing::Between;
                Some(whole(&self.raw, two_digits(first, byte), &mut self.payload))
            }
        }
    }

    /// The payload of the packet that was found last.
    pub fn payload(&self) -> &[u8]
        ensures { result.now ≡ self.now.payload }
    {
        self.payload.as_slice()
    }
}

// What a byte between packets is.
fn alone(byte: u8) -> Option<Found>
    ensures { (payload : _) → items_found result payload ≡ byte_items byte }
{
    match byte {
        3 => Some(Found::Interrupt),
        b'+' => Some(Found::Acknowledged),
        b'-' => Some(Found::Refused),
        _ => None,
    }
}

#[tactic(auto, using(crate::proofs::Kept::short_summing_is_kept, crate::proofs::Kept::short_inside_is_kept))]
// Takes a byte after `$` and the bytes that are kept.
fn inside(raw: &mut Vec<u8>, byte: u8) -> Standing
    requires len { vec_len raw.old ≤ 4097 }
    requires room { 4097 ≤ vec_capacity raw.old }
    ensures place { read_place result raw.new.items ≡ kept (step (Inside raw.old.items) byte) }
    ensures len { vec_len raw.new ≤ 4097 }
    ensures capacity { vec_capacity raw.new ≡ vec_capacity raw.old }
{
    if byte == b'$' {
        raw.clear();
        return Standing::Inside;
    }
    if byte == b'#' {
        return Standing::Summing;
    }
    if raw.len() <= MOST_PAYLOAD {
        raw.push_reserved(byte);
    }
    Standing::Inside
}

// What the bytes that are kept and the number of two digits are. Keeps the payload of a packet.
fn whole(raw: &[u8], digits: Option<u8>, payload: &mut Vec<u8>) -> Found
    requires { 4096 ≤ vec_capacity payload.old }
    ensures found { (a b : _) → digits ≡ two_digits a b → item_found result payload.new.items ≡ packet_item raw.now a b }
    ensures capacity { vec_capacity payload.new ≡ vec_capacity payload.old }
{
    if raw.len() > MOST_PAYLOAD {
        return Found::TooLong;
    }
    if digits != Some(checksum(raw)) {
        return Found::BadSum;
    }
    unescape(raw, payload);
    Found::Packet
}
