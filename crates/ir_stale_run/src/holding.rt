//! Where a thread is with an object after its calls, and what it is answered there.

ghost use Rattle.std.specs.Prelude.{◌≡◌};
ghost use Rattle.ir_stale_run.specs.WhatIf.{leaves, enters, hold_after, answer};

use crate::hold::Hold;
use ir_event_walk::{Exchange, word_of};
use ir_thread::{Ask, Reply};

// Whether a call leaves the object.
fn leaves(object: u8, asked: Ask) -> bool
    ensures { result ≡ leaves object asked }
{
    match asked {
        Ask::Leave(left, _) => left == object,
        _ => false,
    }
}

// Whether a call enters the object.
fn enters(object: u8, asked: Ask, reply: Reply) -> bool
    ensures { result ≡ enters object asked reply }
{
    match (asked, reply) {
        (Ask::Enter(entered, _), _) => entered == object,
        (Ask::Try(tried), Reply::Value(value)) => tried == object && value == 1,
        _ => false,
    }
}

// Where the thread is with the object after a call.
pub fn hold_after(object: u8, call: &Exchange, hold: Hold) -> Hold
    ensures { result ≡ hold_after object call.now hold }
{
    match hold {
        Hold::Reading if leaves(object, call.asked) => Hold::Between,
        Hold::Between if enters(object, call.asked, call.reply) => Hold::Writing,
        _ => hold,
    }
}

// What the thread is answered: in the read's hold the fresh words of the object.
pub fn answer(hold: Hold, object: u8, fresh: &[u32], call: &Exchange) -> Reply
    ensures { result ≡ answer hold object fresh.now call.now }
{
    match (hold, call.asked) {
        (Hold::Reading, Ask::Get(got, index)) if got == object => {
            Reply::Value(word_of(fresh, index))
        }
        _ => call.reply,
    }
}
