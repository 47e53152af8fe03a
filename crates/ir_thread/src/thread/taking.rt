//! What comes after a step.

ghost use Rattle.std.specs.Prelude.{◌≡◌, ◌≢◌, ◌+◌, ◌<◌, ◌≤◌, [], ◌∷◌, ◌++◌, length, slice_set, Some, None};
ghost use Rattle.std.specs.Fmt.{signed_decimal};

use crate::ask::{Ask, Reply};
use crate::call::Call;
use crate::end::End;
use crate::registers::A0;
use crate::thread::Thread;
use ir_image::Code;
use ir_mach::Ran;
use ir_runs::Access;
use itoa::Buffer;

const LINE_FEED: u8 = 10;

impl Reply {
    ghost use Rattle.ir_thread.specs.State.{value_of_reply};

    // What goes into a0.
    fn answer(self) -> Option<u32>
        ensures { result ≡ value_of_reply self }
    {
        match self {
            Reply::Go => None,
            Reply::Value(value) => Some(value),
        }
    }
}

impl Thread {
    ghost use Rattle.ir_thread.specs.Permitted.{ReplySuits, Permits, IsRunning, next_output};
    ghost use Rattle.ir_thread.specs.State.{held_at, ask_of, core_after, core_left, held_after_try, after_ask, after_reply, most_output};
    ghost use Rattle.ir_mach.specs.Execution.{outcome_of, past_call};

    // A private step: an instruction, or the call that answers the thread's number.
    fn go(&mut self, code: &Code)
        requires { IsRunning self.old }
        ensures { self.new ≡ record self.old { core = core_after self.old.number (outcome_of code.now self.old.core) self.old.core; steps = self.old.steps + 1 } }
    {
        if let Ran::Call = self.mach.step(code) {
            self.mach.pass_call(Some(self.number as u32));
        }
        self.steps += 1;
    }

    // Past a call, with its answer in a0 if it has one.
    #[inline(always)]
    pub(super) fn pass(&mut self, answer: Option<u32>)
        requires { IsRunning self.old }
        ensures { self.new ≡ record self.old { core = past_call self.old.core answer; steps = self.old.steps + 1 } }
    {
        self.mach.pass_call(answer);
        self.steps += 1;
    }

    // Into an object, for reading or writing.
    #[inline(always)]
    fn enter(&mut self, object: u8, access: Access)
        requires runs { IsRunning self.old }
        requires object { object < length self.old.held }
        ensures { self.new ≡ record self.old { held = slice_set self.old.held object (Some access) } }
    {
        self.held[object as usize] = Some(access);
    }

    // Into an object for writing, where that was answered.
    #[inline(always)]
    fn enter_if(&mut self, object: u8, reply: Reply)
        requires runs { IsRunning self.old }
        requires object { object < length self.old.held }
        ensures { self.new ≡ record self.old { held = held_after_try reply object self.old.held } }
    {
        if reply == Reply::Value(1) {
            self.enter(object, Access::Writing);
        }
    }

    // Out of an object: past the call, but while the thread releases what it holds its pc stays.
    #[tactic(auto, using(crate::proofs::Highest::held_count_after_leave))]
    #[inline(always)]
    fn leave(&mut self, object: u8)
        requires steps { self.old.ended ≡ None → self.old.steps < self.old.budget }
        requires object { object < length self.old.held }
        requires held { held_at self.old.held object ≢ None }
        ensures { self.new ≡ record self.old { core = core_left self.old.ended self.old.core; steps = self.old.steps + 1; held = slice_set self.old.held object None } }
    {
        self.held[object as usize] = None;
        if self.ended.is_none() {
            self.mach.pass_call(None);
        }
        self.steps += 1;
    }

    fn print_number(&mut self, number: i32)
        requires { length self.old.output + length (signed_decimal number ++ 10 ∷ []) ≤ most_output }
        ensures { self.new ≡ record self.old { output = self.old.output ++ signed_decimal number ++ 10 ∷ [] } }
    {
        let mut buffer = Buffer::new();
        let _ = self
            .output
            .extend_from_slice(buffer.format(number).as_bytes());
        let _ = self.output.push(LINE_FEED);
    }

    fn print(&mut self)
        requires { length self.old.output + length (next_output self.old) ≤ most_output }
        ensures { self.new ≡ record self.old { output = self.old.output ++ next_output self.old } }
    {
        let argument = self.mach.reg(A0);
        match self.call() {
            Some(Call::PutByte) => {
                let _ = self.output.push((argument & 0xff) as u8);
            }
            Some(Call::PutNumber) => self.print_number(argument.cast_signed()),
            _ => {}
        }
    }

    // An end: it is a step, and changes nothing else.
    #[tactic(auto, using(crate::proofs::Highest::held_count_le_length))]
    fn finish(&mut self, end: End)
        requires { self.old.ended ≡ None }
        ensures { self.new ≡ record self.old { steps = self.old.steps + 1; ended = Some end } }
    {
        self.ended = Some(end);
        self.steps += 1;
    }

    #[inline(always)]
    fn step(&mut self, code: &Code, asked: Ask, reply: Reply)
        requires permits { Permits self.old asked }
        requires suits { ReplySuits asked reply }
        ensures { self.new ≡ after_ask code.now self.old asked reply }
    {
        match asked {
            Ask::Private => self.go(code),
            Ask::Env(_) => {
                self.events += 1;
                self.pass(reply.answer());
            }
            Ask::Enter(object, access) => {
                self.events += 1;
                self.enter(object, access);
                self.pass(None);
            }
            Ask::Try(object) => {
                self.events += 1;
                self.enter_if(object, reply);
                self.pass(reply.answer());
            }
            Ask::Leave(object, _) => self.leave(object),
            Ask::Get(_, _) => self.pass(reply.answer()),
            Ask::Put(_, _, _) => self.pass(None),
            Ask::Print => {
                self.print();
                self.pass(None);
            }
            Ask::End(end) => self.finish(end),
            Ask::Done => {}
        }
    }

    /// Takes the step that the thread asks. The reply fits what is asked: the value that an
    /// environment call or a read wants, 1 or 0 to a try, and leave to go elsewhere.
    #[tactic(auto, unfolding(crate::specs::State::after_reply))]
    pub fn take(&mut self, code: &Code, reply: Reply)
        requires { ReplySuits (ask_of code.now self.old) reply }
        ensures { self.new ≡ after_reply code.now self.old reply }
    {
        let asked = self.ask(code);
        self.step(code, asked, reply);
    }

    /// The same, where it is known what the thread asks.
    #[tactic(auto, using(crate::proofs::Asked::ask_of_permitted), unfolding(crate::specs::State::after_reply))]
    #[inline(always)]
    pub fn take_asked(&mut self, code: &Code, asked: Ask, reply: Reply)
        requires asked { asked ≡ ask_of code.now self.old }
        requires suits { ReplySuits asked reply }
        ensures { self.new ≡ after_reply code.now self.old reply }
    {
        self.step(code, asked, reply);
    }
}
