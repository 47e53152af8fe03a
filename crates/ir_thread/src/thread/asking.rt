//! What a thread asks.

ghost use Rattle.std.specs.Prelude.{◌≡◌, ◌+◌, ◌<◌, length, if◌then◌else◌, nat_le, IfErr, IfOk, Some, None};
ghost use Rattle.ir_thread.specs.declared.ask.Ask.{Ask};
ghost use Rattle.ir_thread.specs.declared.ask.Ask.TheVariants as ask;

use crate::ask::Ask;
use crate::call::Call;
use crate::end::End;
use crate::holding::{highest, is_free_from};
use crate::limits::{MOST_EVENTS, MOST_OUTPUT};
use crate::registers::{A0, A1, A2, A7};
use crate::thread::Thread;
use ir_image::Code;
use ir_mach::Ran;
use ir_runs::Access;
use itoa::Buffer;

impl Thread {
    ghost use Rattle.ir_thread.specs.Permitted.{Permits, running_ask, leave_ask, get_ask, put_ask};
    ghost use Rattle.ir_thread.specs.State.{held_at, highest, a0, a1, call_at, number_text, print_ask, logged_ask, is_object, has_word, entry_ask, call_ask, ask_of, release_ask};
    ghost use Rattle.ir_mach.specs.Execution.{outcome_of};
    ghost use Rattle.ir_mach.specs.Steps.{ran_of};

    // The call that the thread makes if it is at one.
    pub(super) fn call(&self) -> Option<Call>
        ensures { result ≡ call_at self.now }
    {
        Call::of_number(self.profile, self.mach.reg(A7))
    }

    // Printing `count` bytes, if there is room for them.
    fn printing(&self, count: usize) -> Ask
        ensures { result ≡ print_ask self.now count }
    {
        if count <= MOST_OUTPUT - self.output.len() {
            Ask::Print
        } else {
            Ask::End(End::OutputFull)
        }
    }

    fn number_length(&self) -> usize
        ensures { result ≡ length (number_text self.now) }
    {
        Buffer::new().format(self.mach.reg(A0).cast_signed()).len() + 1
    }

    // A call that is logged, where there is room for it.
    #[inline(always)]
    fn logged(&self, asked: Ask) -> Ask
        ensures { result ≡ logged_ask self.now asked }
    {
        if self.events < MOST_EVENTS {
            asked
        } else {
            Ask::End(End::LogFull)
        }
    }

    // Object a0, if the guest has it.
    #[inline(always)]
    fn object(&self) -> Option<u8>
        ensures { result ≡ (if is_object self.now (a0 self.now) then Some (a0 self.now) else None) }
    {
        let number = self.mach.reg(A0);
        if (number as usize) < self.held.len() {
            Some(number as u8)
        } else {
            None
        }
    }

    // Object a0 and its word a1, if there is such a word.
    #[inline(always)]
    fn word(&self) -> Option<(u8, u8)>
        ensures { result ≡ (if has_word self.now then Some (a0 self.now, a1 self.now) else None) }
    {
        let object = self.object()?;
        let index = self.mach.reg(A1);
        if (index as usize) < self.form.limits().words {
            Some((object, index as u8))
        } else {
            None
        }
    }

    #[inline(always)]
    fn held_for(&self, object: u8) -> Option<Access>
        requires { object < length self.now.held }
        ensures { result ≡ held_at self.now.held object }
    {
        self.held[object as usize]
    }

    // Object a0, where it may be entered; else how the thread ends.
    #[inline(always)]
    fn entry(&self) -> Result<u8, End>
        ensures object { IfOk result (λ object. (object ≡ a0 self.now) × ((q : Ask) → entry_ask self.now q ≡ logged_ask self.now q)) }
        ensures end { IfErr result (λ end. (q : Ask) → entry_ask self.now q ≡ ask.End end) }
    {
        match self.object() {
            None => Err(End::NoSuchObject),
            Some(object) if is_free_from(self.held.as_slice(), object) => Ok(object),
            Some(_) => Err(End::EntryOutOfOrder),
        }
    }

    #[inline(always)]
    fn entering(&self, access: Access) -> Ask
        ensures { result ≡ entry_ask self.now (ask.Enter (a0 self.now) access) }
    {
        match self.entry() {
            Ok(object) => self.logged(Ask::Enter(object, access)),
            Err(end) => Ask::End(end),
        }
    }

    #[inline(always)]
    fn trying(&self) -> Ask
        ensures { result ≡ entry_ask self.now (ask.Try (a0 self.now)) }
    {
        match self.entry() {
            Ok(object) => self.logged(Ask::Try(object)),
            Err(end) => Ask::End(end),
        }
    }

    #[inline(always)]
    fn leaving(&self) -> Ask
        ensures { result ≡ leave_ask self.now }
    {
        match self.object() {
            None => Ask::End(End::NoSuchObject),
            Some(object) => match self.held_for(object) {
                None => Ask::End(End::NotHeld),
                Some(access) => Ask::Leave(object, access),
            },
        }
    }

    #[inline(always)]
    fn getting(&self) -> Ask
        ensures { result ≡ get_ask self.now }
    {
        match self.word() {
            None => Ask::End(End::NoSuchObject),
            Some((object, index)) => match self.held_for(object) {
                None => Ask::End(End::NotHeld),
                Some(_) => Ask::Get(object, index),
            },
        }
    }

    #[inline(always)]
    fn putting(&self) -> Ask
        ensures { result ≡ put_ask self.now }
    {
        match self.word() {
            None => Ask::End(End::NoSuchObject),
            Some((object, index)) => match self.held_for(object) {
                Some(Access::Writing) => Ask::Put(object, index, self.mach.reg(A2)),
                _ => Ask::End(End::NotHeld),
            },
        }
    }

    // What the thread asks if it is at a call.
    #[inline(always)]
    fn calling(&self) -> Ask
        ensures { result ≡ call_ask (call_at self.now) self.now }
    {
        let Some(call) = self.call() else {
            return Ask::End(End::UnknownCall);
        };
        match call {
            Call::End => Ask::End(End::Exit(self.mach.reg(A0))),
            Call::PutByte => self.printing(1),
            Call::PutNumber => self.printing(self.number_length()),
            Call::Env(kind) => self.logged(Ask::Env(kind)),
            Call::Enter(access) => self.entering(access),
            Call::Leave => self.leaving(),
            Call::Get => self.getting(),
            Call::Put => self.putting(),
            Call::OwnNumber => Ask::Private,
            Call::TryWrite => self.trying(),
        }
    }

    fn running(&self, code: &Code) -> Ask
        ensures { result ≡ running_ask code.now self.now }
    {
        self.asked_by(code, self.mach.next(code))
    }

    // Whether no step of the budget is left.
    #[inline(always)]
    fn is_spent(&self) -> bool
        ensures { result ≡ nat_le self.now.budget self.now.steps }
    {
        self.steps >= self.budget
    }

    // The same, where it is known what its machine's next step comes to. That is looked at first, since whoever runs the
    // machine knows where it stopped.
    #[inline(always)]
    pub(super) fn asked_by(&self, code: &Code, ran: Ran) -> Ask
        requires { ran ≡ ran_of (outcome_of code.now self.now.core) }
        ensures { result ≡ running_ask code.now self.now }
    {
        match ran {
            Ran::Call => {
                if self.is_spent() {
                    Ask::End(End::BudgetSpent)
                } else {
                    self.calling()
                }
            }
            _ if self.is_spent() => Ask::End(End::BudgetSpent),
            Ran::Ran => Ask::Private,
            Ran::Fault(fault) => Ask::End(End::from(fault)),
        }
    }

    // After its end the thread leaves what it holds, the greatest object first.
    pub(super) fn releasing(&self) -> Ask
        ensures { result ≡ release_ask (highest self.now.held) }
    {
        match highest(self.held.as_slice()) {
            Some((object, access)) => Ask::Leave(object, access),
            None => Ask::Done,
        }
    }

    // By whether it has ended.
    fn asked(&self, code: &Code) -> Ask
        ensures { result ≡ ask_of code.now self.now }
    {
        match self.ended {
            Some(_) => self.releasing(),
            None => self.running(code),
        }
    }

    /// What the thread asks: what its next step is. Nothing changes.
    pub fn ask(&self, code: &Code) -> Ask
        ensures value { result ≡ ask_of code.now self.now }
        ensures permits { Permits self.now result }
    {
        self.asked(code)
    }
}
