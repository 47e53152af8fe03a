//! A connection of gdb: bytes are read, and the replies to the packets in them are written.

ghost use Rattle.std.specs.Prelude.{◌≡◌, true, false, Err, IfOk, IfSome};
ghost use Rattle.ir_stream.specs.Answers.{ReadsUpTo};
ghost use Rattle.ir_stream.specs.Endings.{IfEnded};
ghost use Rattle.ir_packet.specs.Stream.{Between, items};
ghost use Rattle.ir_gdb.specs.Connection.{link_of, WroteReplies, WroteRepliesInPart, LeadsToLink};

use crate::remote::Remote;
use ir_object::Hands;
use ir_packet::{MOST_PAYLOAD, Reader};
use ir_stream::{Fault, Flow, Next, Served, Sink, Source, next_byte};
use std::alloc::{AllocError, Global};
use std::marker::Model;

mod answering;
mod writing;

// Room for a payload as a packet.
const MOST_PACKET: usize = 2 * MOST_PAYLOAD + 4;

/// What gdb is connected to, and what has been read and written so far.
#[derive(Drop)]
pub struct Connection {
    remote: Remote,
    reader: Reader,
    // The payload of a reply.
    payload: Vec<u8>,
    // The last packet as it was written, for gdb to be sent again.
    packet: Vec<u8>,
    // A session's line.
    line: Vec<u8>,
    // Whether packets are acknowledged.
    acknowledges: bool,
    // Whether the last reply hasn't been acknowledged: a packet that comes then is a copy.
    is_owed: bool,
}

impl Model for Connection {
    ghost use Rattle.std.specs.Prelude.{◌≡◌, ◌≤◌, vec_capacity};
    ghost use Rattle.ir_gdb.specs.Connection.{Connecting};

    ghost Value = { Connecting };

    ghost view = { λ c. record {
      link = record { stub = c.remote.stub; acknowledges = c.acknowledges; is_owed = c.is_owed; last = c.packet.items };
      reading = c.reader;
      payload = c.payload.items;
    } };

    ghost invariant = { λ c. (vec_capacity c.payload ≡ 4096) × (8196 ≤ vec_capacity c.packet) × (4096 ≤ vec_capacity c.line) };
}

impl Connection {
    /// A connection on which nothing has been read.
    ///
    /// # Errors
    /// Out of memory.
    pub fn new(alloc: Global, remote: Remote) -> Result<Connection, AllocError>
        ensures link { IfOk result (λ connection. connection.link ≡ link_of remote.stub) }
        ensures place { IfOk result (λ connection. connection.reading.place ≡ Between) }
    {
        Ok(Connection {
            remote,
            reader: Reader::new(alloc)?,
            payload: Vec::with_capacity(alloc, MOST_PAYLOAD)?,
            packet: Vec::with_capacity(alloc, MOST_PACKET)?,
            line: Vec::with_capacity(alloc, MOST_PAYLOAD)?,
            acknowledges: true,
            is_owed: false,
        })
    }

    /// Reads bytes, and writes the replies to the packets in them, until one ends the connection, the input ends, a device fails, or
    /// `limit` bytes were read.
    ///
    /// # Errors
    /// After a failed read the replies to all that was read were written, none of which ends the connection. After a failed write those to all but the
    /// last item were, and a prefix of that item's: a reply is written before a byte after its packet is read.
    pub fn serve<H: Hands, R: Source, W: Sink>(
        &mut self,
        hands: &H,
        limit: u64,
        reader: &mut R,
        writer: &mut W,
    ) -> Result<Served, Fault>
        requires start { self.old.reading.place ≡ Between }
        requires reads { R.broken reader.old ≡ false }
        requires writes { W.broken writer.old ≡ false }
        // Where no device fails, the bytes that were read lead to the result, and neither device has failed.
        ensures ended { IfEnded result (ReadsUpTo limit (R.left reader.old) (R.left reader.new)
            (LeadsToLink self.old.link limit result (W.written writer.old) (W.written writer.new))) }
        ensures works { IfEnded result ((R.broken reader.new ≡ false) × (W.broken writer.new ≡ false)) }
        // If the reader makes its bytes known, all of them together lead to it.
        ensures known { IfEnded result (IfSome (R.left reader.old)
            (LeadsToLink self.old.link limit result (W.written writer.old) (W.written writer.new))) }
        ensures read { result ≡ Err Fault.Read → (R.broken reader.new ≡ true) × (W.broken writer.new ≡ false)
            × ReadsUpTo limit (R.left reader.old) (R.left reader.new) (λ consumed.
            WroteReplies self.old.link (items consumed) false (W.written writer.old) (W.written writer.new)) }
        ensures write { result ≡ Err Fault.Write → (R.broken reader.new ≡ false) × (W.broken writer.new ≡ true)
            × ReadsUpTo limit (R.left reader.old) (R.left reader.new) (λ consumed.
            WroteRepliesInPart self.old.link (items consumed) (W.written writer.old) (W.written writer.new)) }
    {
        for taken in 0..limit {
            let byte = match next_byte(reader) {
                Next::Failed => return Err(Fault::Read),
                Next::End => return Ok(Served::InputEnd),
                Next::Byte(byte) => byte,
            };
            let Some(found) = self.reader.take(byte) else {
                continue;
            };
            if let Flow::Quits = self.take(hands, found, writer)? {
                return Ok(Served::Quit);
            }
        }
        Err(Fault::TooLong)
    }
}
