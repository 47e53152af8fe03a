//! Acknowledgements and packets as they are written.

ghost use Rattle.std.specs.Prelude.{◌≡◌, ◌≤◌, ℕ, List, length, IfErr};
ghost use Rattle.ir_stream.specs.Writing.{WritesText};
ghost use Rattle.ir_packet.specs.Packets.{packet_of};
ghost use Rattle.ir_packet.specs.Replies.{reply_text, output_reply};
ghost use Rattle.ir_gdb.specs.Connection.{sent, resent, sign, connection_answer_text};

use crate::connection::Connection;
use ir_packet::{Reply, put_output, put_packet, put_text, reply_text};
use ir_stream::{Fault, Sink, write_all};

// The most bytes of a session's answer in one packet.
const MOST_PIECE: usize = 500;

// Writes bytes.
fn write<W: Sink>(writer: &mut W, bytes: &[u8]) -> Result<(), Fault>
    ensures writes { WritesText W.written W.broken writer.old writer.new bytes.now result }
    ensures fault { IfErr result (λ f. f ≡ Fault.Write) }
{
    match write_all(writer, bytes) {
        Ok(()) => Ok(()),
        Err(_) => Err(Fault::Write),
    }
}

impl Connection {
    // Writes an acknowledgement, if packets are acknowledged.
    pub fn acknowledge<W: Sink>(&self, text: &[u8], writer: &mut W) -> Result<(), Fault>
        ensures writes { WritesText W.written W.broken writer.old writer.new (sign self.now.link text.now) result }
        ensures fault { IfErr result (λ f. f ≡ Fault.Write) }
    {
        if !self.acknowledges {
            return Ok(());
        }
        write(writer, text)
    }

    // Writes the last packet again, if packets are acknowledged.
    pub fn resend<W: Sink>(&self, writer: &mut W) -> Result<(), Fault>
        ensures writes { WritesText W.written W.broken writer.old writer.new (resent self.now.link) result }
        ensures fault { IfErr result (λ f. f ≡ Fault.Write) }
    {
        self.acknowledge(self.packet.as_slice(), writer)
    }

    // Writes the payload as a packet.
    pub fn send<W: Sink>(&mut self, writer: &mut W) -> Result<(), Fault>
        ensures link { self.new.link ≡ sent self.old.link self.old.link.stub (packet_of self.old.payload) }
        ensures reading { self.new.reading ≡ self.old.reading }
        ensures writes { WritesText W.written W.broken writer.old writer.new (packet_of self.old.payload) result }
        ensures fault { IfErr result (λ f. f ≡ Fault.Write) }
    {
        self.packet.clear();
        put_packet(&mut self.packet, self.payload.as_slice());
        self.is_owed = true;
        write(writer, self.packet.as_slice())
    }

    // Writes a reply that is always the same.
    pub fn send_reply<W: Sink>(&mut self, reply: Reply, writer: &mut W) -> Result<(), Fault>
        ensures link { self.new.link ≡ sent self.old.link self.old.link.stub (packet_of (reply_text reply)) }
        ensures reading { self.new.reading ≡ self.old.reading }
        ensures writes { WritesText W.written W.broken writer.old writer.new (packet_of (reply_text reply)) result }
        ensures fault { IfErr result (λ f. f ≡ Fault.Write) }
    {
        self.payload.clear();
        put_text(&mut self.payload, reply_text(reply));
        self.send(writer)
    }

    // Writes a piece of a session's answer.
    fn send_piece<W: Sink>(&mut self, piece: &[u8], writer: &mut W) -> Result<(), Fault>
        requires { length piece.now ≤ 500 }
        ensures link { self.new.link ≡ sent self.old.link self.old.link.stub (packet_of (output_reply piece.now)) }
        ensures reading { self.new.reading ≡ self.old.reading }
        ensures writes { WritesText W.written W.broken writer.old writer.new (packet_of (output_reply piece.now)) result }
        ensures fault { IfErr result (λ f. f ≡ Fault.Write) }
    {
        self.payload.clear();
        put_output(&mut self.payload, piece);
        self.send(writer)
    }

    // Writes what a session answered, a packet for each piece. Behind a packet that is written next, the link is as if none of them were.
    pub fn send_answer<W: Sink>(&mut self, answer: &[u8], writer: &mut W) -> Result<(), Fault>
        ensures link { (packet : List ℕ) → sent self.new.link self.new.link.stub packet ≡ sent self.old.link self.old.link.stub packet }
        ensures reading { self.new.reading ≡ self.old.reading }
        ensures writes { WritesText W.written W.broken writer.old writer.new (connection_answer_text answer.now) result }
        ensures fault { IfErr result (λ f. f ≡ Fault.Write) }
    {
        let mut rest = answer;
        'pieces: while !rest.is_empty() {
            let (piece, more) = rest.split_at(MOST_PIECE.min(rest.len()));
            self.send_piece(piece, writer)?;
            rest = more;
        }
        Ok(())
    }
}
