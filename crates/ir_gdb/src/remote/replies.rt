//! The reply to a request.

ghost use Rattle.std.specs.Prelude.{◌≡◌, ◌<◌, ◌≤◌, ◌+◌, ◌++◌, List, ℕ, true, None, OnOk, OnErr, vec_len, vec_capacity};
ghost use Rattle.ir_cut.specs.Positions.{EachRun};
ghost use Rattle.ir_packet.specs.declared.request.Request.TheVariants.{Register};
ghost use Rattle.ir_gdb.specs.Replies.{RepliesIfMemory, Lacks, plain_reply, after_plain, has_reply};

use crate::fixed::fixed_reply;
use crate::guarded::Guarded;
use crate::point::{Breakpoint, Watched};
use crate::remote::Remote;
use crate::texts::{description, supported};
use ir_object::Hands;
use ir_packet::{Reply, Request, put_piece, put_text, reply_text};
use std::alloc::{AllocError, Global};

impl Remote {
    // The reply to a request that neither reads the run nor moves it, if it is such a one.
    fn plain_reply(&mut self, alloc: Global, request: Request) -> Option<Reply>
        ensures reply { result ≡ plain_reply self.old.stub request }
        ensures stub { self.new.stub ≡ after_plain self.old.stub request }
    {
        match request {
            Request::General(who) => Some(self.general(who)),
            Request::Choose(who) => Some(self.choose(who)),
            Request::Alive(id) => Some(self.alive(id)),
            Request::Extended => Some(self.extend()),
            Request::EndProcess => Some(self.end_process()),
            Request::SetBreak(address, hardware) => {
                let point = Breakpoint { address, hardware };
                Some(self.set_break(Guarded::new(point, Vec::new(alloc))))
            }
            Request::ClearBreak(address, hardware) => {
                Some(self.clear_break(Breakpoint { address, hardware }))
            }
            Request::SetWatch(address, size) => Some(self.set_watch(Watched { address, size })),
            Request::ClearWatch(address, size) => {
                Some(self.clear_watch(Watched { address, size }))
            }
            _ => fixed_reply(request),
        }
    }

    // Puts the reply to a request that reads the run or moves it at the end.
    fn put_read<H: Hands>(
        &mut self,
        hands: &H,
        request: Request,
        out: &mut Vec<u8>,
    ) -> Result<(), AllocError>
        requires room { vec_len out.old + 4000 ≤ vec_capacity out.old }
        requires register { (n : ℕ) → request ≡ Register n → n < 33 }
        requires replies { has_reply request ≡ true }
        requires reads { plain_reply self.old.stub request ≡ None }
        ensures ok { OnOk result ((text : List ℕ) × EachRun self.old.stub.desk.fitted (λ run. RepliesIfMemory run self.old.stub request text self.new.stub) × (out.new.items ≡ out.old.items ++ text)) }
        ensures err { OnErr result (Lacks self.old.stub request self.new.stub × (out.new.items ≡ out.old.items)) }
        ensures capacity { vec_capacity out.new ≡ vec_capacity out.old }
    {
        self.has_run();
        match request {
            Request::Supported => {
                put_text(out, supported());
                Ok(())
            }
            Request::Description(from, most) => {
                put_piece(out, description(), from, most);
                Ok(())
            }
            Request::Threads(from, most) => self.threads(hands.alloc(), from, most, out),
            Request::Reason => self.reason(hands, out),
            Request::Registers => self.registers(hands, out),
            Request::Register(number) => self.register(hands, number, out),
            Request::Memory(address, size) => self.memory(hands, address, size, out),
            Request::Move(motion, mover) => self.make_move(hands, motion, mover, out),
            Request::Restart => self.restart(hands, None, out),
            Request::RestartAt(number) => self.restart(hands, Some(number), out),
            _ => unreachable!(),
        }
    }

    /// Puts the reply to a request at the end.
    ///
    /// # Errors
    /// Out of memory: no thread has moved, and nothing is set.
    pub fn reply<H: Hands>(
        &mut self,
        hands: &H,
        request: Request,
        out: &mut Vec<u8>,
    ) -> Result<(), AllocError>
        requires room { vec_len out.old + 4000 ≤ vec_capacity out.old }
        requires register { (n : ℕ) → request ≡ Register n → n < 33 }
        requires replies { has_reply request ≡ true }
        ensures ok { OnOk result ((text : List ℕ) × EachRun self.old.stub.desk.fitted (λ run. RepliesIfMemory run self.old.stub request text self.new.stub) × (out.new.items ≡ out.old.items ++ text)) }
        ensures err { OnErr result (Lacks self.old.stub request self.new.stub × (out.new.items ≡ out.old.items)) }
        ensures capacity { vec_capacity out.new ≡ vec_capacity out.old }
    {
        match self.plain_reply(hands.alloc(), request) {
            Some(reply) => {
                put_text(out, reply_text(reply));
                Ok(())
            }
            None => self.put_read(hands, request, out),
        }
    }
}
