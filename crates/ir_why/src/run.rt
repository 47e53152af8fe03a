//! `ir why`: what is asked about an event of a trace, and its answer: the event, what it needs of other threads, how many events of each thread are
//! before it, and the chain of waits that led to it; or a circle of events that need each other.

ghost use Rattle.std.specs.Prelude.{◌≡◌, ◌<◌, length, IfOk, IfErr, OnOk};
ghost use Rattle.ir_trace.specs.Recorded.{recorded_thread};
ghost use Rattle.ir_past.specs.Answers.{AreCoherent};
ghost use Rattle.ir_past.specs.Replies.{IsTextless};
ghost use Rattle.ir_why.specs.Answers.{event_asked, HasAsked, LacksEvent, IsEventAnswer, IsWhyOfTrace, IsWhyTold};

use crate::question::Question;
use crate::texts::reason_of;
use ir_files::ExitStatus;
use ir_past::{Absent, Answer, AskErr, Place, Printed, TraceQuestion, put_answer};
use ir_picture::{circle_answer, picture_of};
use ir_stream::Sink;
use ir_trace::Trace;
use std::alloc::{AllocError, Global};

/// The event that is asked about, if the trace has it.
///
/// # Errors
/// The trace has no such thread, or the thread no such event.
#[tactic(auto, using(ir_trace::proofs::CallerLemmas::recorded_threads_within))]
pub fn find(trace: &Trace, asked: &Question) -> Result<Place, Absent>
    ensures place { IfOk result (λ place. place ≡ event_asked asked.now) }
    ensures there { OnOk result (HasAsked trace.now asked.now) }
    ensures absent { IfErr result (LacksEvent asked.now trace.now) }
{
    let threads = trace.threads();
    let Some(thread) = threads.get(asked.thread as usize) else {
        return Err(Absent::Thread);
    };
    if asked.event as usize >= thread.log().events().len() {
        return Err(Absent::Event);
    }
    Ok(Place {
        thread: asked.thread as u8,
        event: asked.event,
    })
}

// The answer about an event of a coherent trace.
fn answer_there(alloc: Global, trace: &Trace, here: Place, most: u32) -> Result<Answer, AllocError>
    requires coherent { AreCoherent trace.now }
    requires thread { here.thread < length trace.now.threads }
    requires event { here.event < length (recorded_thread trace.now here.thread).events }
    ensures { IfOk result (λ a. IsEventAnswer trace.now here most a.status a.text.items) }
{
    match picture_of(alloc, trace, &None)? {
        Err(circle) => circle_answer(alloc, &circle),
        Ok(picture) => Ok(Answer {
            status: ExitStatus::Done,
            text: reason_of(alloc, trace, here, most, &picture.boxes)?,
        }),
    }
}

// The answer about a coherent trace.
fn answer_of(alloc: Global, trace: &Trace, asked: &Question) -> Result<Answer, AskErr>
    requires { AreCoherent trace.now }
    ensures there { OnOk result (HasAsked trace.now asked.now) }
    ensures ok { IfOk result (λ a. IsWhyOfTrace asked.now trace.now a.status a.text.items) }
    ensures fails { IfErr result (IsTextless (LacksEvent asked.now trace.now)) }
{
    match find(trace, asked) {
        Ok(here) => Ok(answer_there(alloc, trace, here, asked.most)?),
        Err(what) => Err(AskErr::Absent(what)),
    }
}

impl TraceQuestion for Question {
    ghost is_answer = { IsWhyTold };

    ghost is_absent = { LacksEvent };

    fn print<O: Sink>(&self, alloc: Global, trace: &Trace, out: &mut O) -> Printed {
        let answer = answer_of(alloc, trace, self)?;
        Ok(put_answer(&answer, out)?)
    }
}
