//! Whether a write rests on a read.

ghost use Rattle.std.specs.Prelude.{◌≡◌, Some};
ghost use Rattle.ir_event_walk.specs.Calls.{AllSuit};
ghost use Rattle.ir_stale_run.specs.WhatIf.{rest_by, found_of};

use crate::found::Found;
use crate::kept::Kept;
use crate::reason::Reason;
use crate::rest::Rest;
use crate::what_if::what_if;
use crate::words::{changed_word, puts};
use ir_event_walk::word_of;
use ir_image::Code;

// How a write rests on a read by this word, if there is a reason.
fn rest_by(was: &[u32], now: &[u32], word: u8, reason: Option<Reason>) -> Option<Rest>
    ensures { result ≡ rest_by was.now now.now (Some word) reason }
{
    let reason = reason?;
    Some(Rest {
        word,
        was: word_of(was, word),
        is: word_of(now, word),
        reason,
    })
}

// How the write rests on the read, if it does, as far as it is known without a copy of the thread, where there is none; the thread may
// take `fuel` steps.
pub fn found_of(code: &Code, kept: Kept, fuel: u64) -> Found
    requires { AllSuit kept.calls.items }
    ensures { result ≡ found_of code.now kept.object kept.was.items kept.now.items fuel kept.thread kept.calls.items }
{
    let Kept {
        thread,
        object,
        was,
        now,
        calls,
    } = kept;
    if !puts(object, &calls) {
        return Found::Known(None);
    }
    let Some(word) = changed_word(object, &was, &now, &calls) else {
        return Found::Known(None);
    };
    let Some(thread) = thread else {
        return Found::Unknown;
    };
    let reason = what_if(code, thread, object, &now, &calls, fuel);
    Found::Known(rest_by(&was, &now, word, reason))
}
