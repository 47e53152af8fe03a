//! The events of a run, or those of a thread.

ghost use Rattle.std.specs.Prelude.{◌≡◌, ◌<◌, ◌++◌, [], length, slice_get, IfOk, IfErr, OnOk, Some};
ghost use Rattle.ir_trace.specs.Recorded.{recorded_thread};
ghost use Rattle.ir_past.specs.Replies.{IsDoneWith, IsTextless};
ghost use Rattle.ir_events.specs.Events.{ArePcs};
ghost use Rattle.ir_events.specs.Texts.{named_line, logged_at, thread_text, events_text};
ghost use Rattle.ir_monitor.specs.Events.{AreEventsSaid, LacksThread};

use ir_events::{EventPcs, Logged, event_line, pcs};
use ir_files::ExitStatus;
use ir_fit::Fitted;
use ir_opened::RunQuestion;
use ir_past::{Absent, AskErr, Printed, put_bytes};
use ir_stream::Sink;
use std::alloc::{AllocError, Global};

// An event of a thread, with its step and its pc.
#[tactic(auto, using(ir_fit::proofs::CallerLemmas::entries_count_events))]
fn logged_at(fitted: &Fitted, pcs: &EventPcs, thread: usize, number: usize) -> Logged
    requires thread { thread < length fitted.now.guest.entries }
    requires event { number < length (recorded_thread fitted.now.recorded thread).events }
    requires pcs { ArePcs fitted.now pcs.now }
    ensures there { slice_get (recorded_thread fitted.now.recorded thread).events number ≡ Some result.event }
    ensures is { result ≡ logged_at fitted.now pcs.now thread number result.event }
{
    let events = fitted.trace().threads()[thread].log().events();
    let steps = fitted.entries(thread);
    let pcs = pcs.at(thread);
    Logged {
        thread,
        number,
        step: steps[number],
        pc: pcs[number],
        event: events[number],
    }
}

// Puts the line of an event at the end. Its pc has no name.
#[tactic(auto, unfolding(ir_symbols::specs::Tables::nearest))]
fn push_line(alloc: Global, logged: &Logged, text: &mut Vec<u8>) -> Result<(), AllocError>
    ensures { OnOk result (text.new.items ≡ text.old.items ++ named_line [] logged.now) }
{
    let line = event_line(alloc, logged, b"")?;
    text.extend_from_slice(line.as_slice())
}

// Puts the lines of a thread's events at the end.
fn push_thread(
    alloc: Global,
    fitted: &Fitted,
    pcs: &EventPcs,
    thread: usize,
    text: &mut Vec<u8>,
) -> Result<(), AllocError>
    requires thread { thread < length fitted.now.guest.entries }
    requires pcs { ArePcs fitted.now pcs.now }
    ensures { OnOk result (text.new.items ≡ text.old.items ++ thread_text fitted.now pcs.now [] thread) }
{
    let count = fitted.trace().threads()[thread].log().events().len();
    for number in 0..count {
        let logged = logged_at(fitted, pcs, thread, number);
        push_line(alloc, &logged, text)?;
    }
    Ok(())
}

// Puts the lines of all threads' events at the end.
fn push_all(
    alloc: Global,
    fitted: &Fitted,
    pcs: &EventPcs,
    text: &mut Vec<u8>,
) -> Result<(), AllocError>
    requires { ArePcs fitted.now pcs.now }
    ensures { OnOk result (text.new.items ≡ text.old.items ++ events_text fitted.now pcs.now []) }
{
    for thread in 0..fitted.image().entries().len() {
        push_thread(alloc, fitted, pcs, thread, text)?;
    }
    Ok(())
}

/// The events of a run, or those of a thread: it is answered by a line for each, as `ir events` prints it without a map.
#[derive(Clone, Copy, Debug, PartialEq, Eq)]
pub struct EventsQuestion {
    /// The thread; if there is none, all are asked about.
    pub thread: Option<u32>,
}

// The lines that answer a question.
fn lines(alloc: Global, fitted: &Fitted, asked: EventsQuestion) -> Result<Vec<u8>, AskErr>
    ensures ok { IfOk result (λ text. AreEventsSaid asked.thread fitted.now text.items) }
    ensures fails { IfErr result (IsTextless (LacksThread asked.thread fitted.now)) }
{
    let mut text = Vec::new(alloc);
    match asked.thread {
        None => {
            let pcs = pcs(alloc, fitted)?;
            push_all(alloc, fitted, &pcs, &mut text)?;
        }
        Some(thread) => {
            if thread as usize >= fitted.image().entries().len() {
                return Err(AskErr::Absent(Absent::Thread));
            }
            let pcs = pcs(alloc, fitted)?;
            push_thread(alloc, fitted, &pcs, thread as usize, &mut text)?;
        }
    }
    Ok(text)
}

impl RunQuestion for EventsQuestion {
    ghost is_answer = { λ asked f. IsDoneWith (AreEventsSaid asked.thread f) };

    ghost is_absent = { λ asked. LacksThread asked.thread };

    fn print<O: Sink>(&self, alloc: Global, fitted: &Fitted, out: &mut O) -> Printed {
        let text = lines(alloc, fitted, *self)?;
        put_bytes(text.as_slice(), out)?;
        Ok(ExitStatus::Done)
    }
}
