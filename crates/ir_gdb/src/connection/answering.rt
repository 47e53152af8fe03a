//! What is written for an item of the stream.

ghost use Rattle.std.specs.Prelude.{◌≡◌, ◌≤◌, ◌<◌, ◌&&◌, ℕ, [], length, codes, true, IfOk, IfErr};
ghost use Rattle.ir_stream.specs.Endings.{flow_after};
ghost use Rattle.ir_packet.specs.Reading.{item_found};
ghost use Rattle.ir_packet.specs.Requests.{request_of, console_line, break_conditions};
ghost use Rattle.ir_packet.specs.Stream.{TooLong};
ghost use Rattle.ir_packet.specs.declared.request.Request.TheVariants.{Register};
ghost use Rattle.ir_debug.specs.Machine.{quits};
ghost use Rattle.ir_gdb.specs.Guards.{guarded};
ghost use Rattle.ir_gdb.specs.Replies.{has_reply};
ghost use Rattle.ir_gdb.specs.Connection.{sign, before_new_reply, before_reply, is_copy, is_packet, Consults, AnswersLine};
ghost use Rattle.ir_gdb.specs.Connection.{IsBreakSet, SetsBreak, RepliesToItem, AnswersRequest, AnswersPacket, AnswersNew, AnswersItem, ends_request};
ghost use Rattle.ir_gdb.specs.Connection.{request_ends, item_ends, SendsOrFails};

use crate::connection::Connection;
use crate::console::Answered;
use crate::guarded::Guarded;
use crate::point::Breakpoint;
use ir_command::{Command, parse_line};
use ir_object::Hands;
use ir_packet::{Found, Reply, Request, break_conditions, put_line, request_of};
use ir_stream::{Fault, Flow, Sink};
use std::alloc::{AllocError, Global};

// Whether gdb sends what was found again where it has waited for the reply.
fn is_packet(found: Found) -> bool
    ensures { (payload : _) → result ≡ is_packet (item_found found payload) }
{
    matches!(found, Found::Packet | Found::BadSum | Found::TooLong)
}

// Whether a line ends a session.
#[tactic(auto, unfolding(ir_debug::specs::Machine::quits))]
fn quits(line: &[u8]) -> bool
    ensures { result ≡ quits line.now }
{
    matches!(parse_line(line), Ok(Some(Command::Quit)))
}

impl Connection {
    // What the line of the packet that was read last is answered; none if it would end the session.
    fn answer_of<H: Hands>(&mut self, hands: &H) -> Result<Option<Answered>, AllocError>
        requires { length self.old.reading.payload ≤ 4096 }
        ensures answer { Consults self.old.link (console_line self.old.reading.payload) result self.new.link }
        ensures reading { self.new.reading ≡ self.old.reading }
    {
        self.line.clear();
        put_line(&mut self.line, self.reader.payload());
        if quits(self.line.as_slice()) {
            return Ok(None);
        }
        let Ok(answered) = Answered::new(hands.alloc()) else {
            return Err(AllocError);
        };
        let mut answered = answered;
        let line = self.line.as_slice();
        let Ok(()) = self.remote.hear(hands, line, &mut answered) else {
            return Err(AllocError);
        };
        Ok(Some(answered))
    }

    // `qRcmd`: what its line is answered, and then `OK`.
    fn answer_line<H: Hands, W: Sink>(&mut self, hands: &H, writer: &mut W) -> Result<(), Fault>
        requires { length self.old.reading.payload ≤ 4096 }
        ensures reading { self.new.reading ≡ self.old.reading }
        ensures writes { SendsOrFails W.written W.broken
            (AnswersLine (quits (console_line self.old.reading.payload)) self.old.link (console_line self.old.reading.payload)) []
            self.new.link writer.old writer.new result }
        ensures fault { IfErr result (λ f. f ≡ Fault.Write) }
    {
        match self.answer_of(hands) {
            Ok(Some(answered)) => {
                self.send_answer(answered.as_slice(), writer)?;
                self.send_reply(Reply::Done, writer)
            }
            Ok(None) => self.send_reply(Reply::NotPermitted, writer),
            Err(AllocError) => self.send_reply(Reply::NoMemory, writer),
        }
    }

    // Writes the reply to a request.
    fn answer<H: Hands, W: Sink>(
        &mut self,
        hands: &H,
        request: Request,
        writer: &mut W,
    ) -> Result<(), Fault>
        requires register { (n : ℕ) → request ≡ Register n → n < 33 }
        requires replies { has_reply request ≡ true }
        ensures reading { self.new.reading ≡ self.old.reading }
        ensures writes { SendsOrFails W.written W.broken (RepliesToItem self.old.link request) [] self.new.link writer.old writer.new result }
        ensures fault { IfErr result (λ f. f ≡ Fault.Write) }
    {
        self.payload.clear();
        match self.remote.reply(hands, request, &mut self.payload) {
            Ok(()) => self.send(writer),
            Err(AllocError) => self.send_reply(Reply::NoMemory, writer),
        }
    }

    // Sets a breakpoint with the conditions of the packet that was read last, if there is memory for these.
    fn set_break(&mut self, alloc: Global, point: Breakpoint) -> Reply
        ensures reading { self.new.reading ≡ self.old.reading }
        ensures link { IsBreakSet self.old.link (guarded point (break_conditions self.old.reading.payload)) result self.new.link }
    {
        let Ok(conditions) = break_conditions(alloc, self.reader.payload()) else {
            return Reply::NoMemory;
        };
        self.remote.set_break(Guarded::new(point, conditions))
    }

    // `Z0`, `Z1` with conditions.
    fn answer_break<W: Sink>(
        &mut self,
        alloc: Global,
        point: Breakpoint,
        writer: &mut W,
    ) -> Result<(), Fault>
        ensures reading { self.new.reading ≡ self.old.reading }
        ensures writes { SendsOrFails W.written W.broken (SetsBreak self.old.link (guarded point (break_conditions self.old.reading.payload))) [] self.new.link writer.old writer.new result }
        ensures fault { IfErr result (λ f. f ≡ Fault.Write) }
    {
        let reply = self.set_break(alloc, point);
        self.send_reply(reply, writer)
    }

    // Answers a request, which came with the payload that was read last.
    fn answer_request<H: Hands, W: Sink>(
        &mut self,
        hands: &H,
        request: Request,
        writer: &mut W,
    ) -> Result<Flow, Fault>
        requires len { length self.old.reading.payload ≤ 4096 }
        requires register { (n : ℕ) → request ≡ Register n → n < 33 }
        ensures reading { self.new.reading ≡ self.old.reading }
        ensures writes { SendsOrFails W.written W.broken (AnswersRequest self.old.link self.old.reading.payload request) [] self.new.link writer.old writer.new result }
        ensures flow { IfOk result (λ f. f ≡ flow_after (ends_request request)) }
        ensures fault { IfErr result (λ f. f ≡ Fault.Write) }
    {
        match request {
            Request::Kill => Ok(Flow::Quits),
            Request::Console => {
                self.answer_line(hands, writer)?;
                Ok(Flow::Goes)
            }
            Request::SetBreakIf(address, hardware) => {
                self.answer_break(hands.alloc(), Breakpoint { address, hardware }, writer)?;
                Ok(Flow::Goes)
            }
            Request::NoAcknowledgements => {
                self.send_reply(Reply::Done, writer)?;
                self.acknowledges = false;
                Ok(Flow::Goes)
            }
            Request::Detach => {
                self.answer(hands, request, writer)?;
                Ok(Flow::Quits)
            }
            _ => {
                self.answer(hands, request, writer)?;
                Ok(Flow::Goes)
            }
        }
    }

    // Answers the packet that was read last.
    fn take_packet<H: Hands, W: Sink>(&mut self, hands: &H, writer: &mut W) -> Result<Flow, Fault>
        requires { length self.old.reading.payload ≤ 4096 }
        ensures reading { self.new.reading ≡ self.old.reading }
        ensures writes { SendsOrFails W.written W.broken (AnswersPacket self.old.link self.old.reading.payload) (sign self.old.link (codes "+")) self.new.link writer.old writer.new result }
        ensures flow { IfOk result (λ f. f ≡ flow_after (ends_request (request_of self.old.reading.payload))) }
        ensures fault { IfErr result (λ f. f ≡ Fault.Write) }
    {
        let request = request_of(self.reader.payload());
        self.acknowledge(b"+", writer)?;
        self.answer_request(hands, request, writer)
    }

    // Answers a packet of too many bytes, which isn't known.
    fn take_long<W: Sink>(&mut self, writer: &mut W) -> Result<Flow, Fault>
        ensures reading { self.new.reading ≡ self.old.reading }
        ensures writes { SendsOrFails W.written W.broken (AnswersNew self.old.link TooLong) [] self.new.link writer.old writer.new result }
        ensures flow { IfOk result (λ f. f ≡ Flow.Goes) }
        ensures fault { IfErr result (λ f. f ≡ Fault.Write) }
    {
        self.acknowledge(b"+", writer)?;
        self.send_reply(Reply::Nothing, writer)?;
        Ok(Flow::Goes)
    }

    // Answers what was found and is no copy.
    fn take_new<H: Hands, W: Sink>(
        &mut self,
        hands: &H,
        found: Found,
        writer: &mut W,
    ) -> Result<Flow, Fault>
        requires { found ≡ Found.Packet → length self.old.reading.payload ≤ 4096 }
        ensures reading { self.new.reading ≡ self.old.reading }
        ensures writes { SendsOrFails W.written W.broken (AnswersNew self.old.link (item_found found self.old.reading.payload))
            (before_new_reply self.old.link (item_found found self.old.reading.payload)) self.new.link writer.old writer.new result }
        ensures flow { IfOk result (λ f. f ≡ flow_after (request_ends (item_found found self.old.reading.payload))) }
        ensures fault { IfErr result (λ f. f ≡ Fault.Write) }
    {
        match found {
            Found::Packet => self.take_packet(hands, writer),
            Found::TooLong => self.take_long(writer),
            Found::BadSum => {
                self.acknowledge(b"-", writer)?;
                Ok(Flow::Goes)
            }
            Found::Interrupt => {
                self.remote.interrupt();
                Ok(Flow::Goes)
            }
            Found::Acknowledged => {
                self.is_owed = false;
                Ok(Flow::Goes)
            }
            Found::Refused => {
                self.resend(writer)?;
                Ok(Flow::Goes)
            }
        }
    }

    // Whether what was found is a packet before the reply to the last has been acknowledged. It is a copy of that then: gdb sends a
    // packet again where it has waited for the reply, and no other before.
    fn is_copy(&self, found: Found) -> bool
        ensures { (payload : _) → result ≡ (is_copy self.now.link && is_packet (item_found found payload)) }
    {
        self.acknowledges && self.is_owed && is_packet(found)
    }

    // Answers what was found.
    pub fn take<H: Hands, W: Sink>(
        &mut self,
        hands: &H,
        found: Found,
        writer: &mut W,
    ) -> Result<Flow, Fault>
        requires { found ≡ Found.Packet → length self.old.reading.payload ≤ 4096 }
        ensures reading { self.new.reading ≡ self.old.reading }
        ensures writes { SendsOrFails W.written W.broken (AnswersItem self.old.link (item_found found self.old.reading.payload))
            (before_reply self.old.link (item_found found self.old.reading.payload)) self.new.link writer.old writer.new result }
        ensures flow { IfOk result (λ f. f ≡ flow_after (item_ends self.old.link (item_found found self.old.reading.payload))) }
        ensures fault { IfErr result (λ f. f ≡ Fault.Write) }
    {
        if self.is_copy(found) {
            return Ok(Flow::Goes);
        }
        self.take_new(hands, found, writer)
    }
}
