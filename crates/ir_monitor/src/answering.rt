//! What is asked of a run is answered.

ghost use Rattle.std.specs.Prelude.{◌≡◌, ◌<◌, length, IfErr, OnOk, false};
ghost use Rattle.ir_files.specs.Writers.{writer_of};
ghost use Rattle.ir_monitor.specs.Answers.{IsLastSaid, IsAnswerTo, event_question};
ghost use Rattle.ir_monitor.specs.Telling.{HasSaid, HasNotSaid};

use crate::asked::{Asked, Form};
use crate::events::EventsQuestion;
use crate::here::Here;
use crate::last::last_event;
use crate::saying::{say, say_line};
use ir_fit::Fitted;
use ir_past::PastErr;
use ir_stale_run::RestsQuestion;
use ir_stream::Sink;
use ir_who::Question as VersionsQuestion;
use ir_who_word::Question as WordQuestion;
use ir_why::{FitQuestion, Question as EventQuestion};
use std::alloc::Global;

// How many links of the chain of waits are told, as by `ir why` unless it is told otherwise.
const TOLD_LINKS: u32 = 20;

// What is asked about an event.
fn event_question(thread: u32, event: u32) -> FitQuestion
    ensures { result ≡ event_question thread event }
{
    FitQuestion {
        what: EventQuestion {
            thread,
            event,
            most: TOLD_LINKS,
        },
        at: None,
    }
}

impl Form {
    ghost use Rattle.ir_monitor.specs.Answers.{form_words};

    // How a question of this form is written.
    fn words(self) -> &'static str
        ensures { result.now ≡ form_words self }
    {
        match self {
            Form::Who => "usage: monitor who OBJECT [VERSION], or monitor who OBJECT word WORD",
            Form::Stale => "usage: monitor stale",
            Form::Why => "usage: monitor why [THREAD EVENT]",
            Form::Events => "usage: monitor events [THREAD]",
        }
    }
}

// Answers why the last event came that a thread made before it came here.
fn say_last<O: Sink>(alloc: Global, fitted: &Fitted, here: Here, out: &mut O) -> Result<(), PastErr>
    requires works { O.broken out.old ≡ false }
    requires thread { here.thread < length fitted.now.guest.entries }
    ensures ok { OnOk result (HasSaid (IsLastSaid fitted.now here) (writer_of (O.written out.old) (O.written out.new) (O.broken out.new))) }
    ensures fails { IfErr result (λ e. HasNotSaid (IsLastSaid fitted.now here) e (writer_of (O.written out.old) (O.written out.new) (O.broken out.new))) }
{
    match last_event(fitted, here) {
        Some(event) => say(alloc, fitted, &event_question(here.thread, event), out),
        None => say_line(alloc, "the thread has made no event yet", out),
    }
}

/// Answers what a thread asks of a run from where it is: writes what the command prints of the run, or a line that says what the run doesn't
/// have or how the question is written.
///
/// # Errors
/// Memory ran out or the writer failed, and a prefix of the answer was written.
pub fn answer<O: Sink>(
    alloc: Global,
    fitted: &Fitted,
    here: Here,
    asked: Asked,
    out: &mut O,
) -> Result<(), PastErr>
    requires works { O.broken out.old ≡ false }
    requires thread { here.thread < length fitted.now.guest.entries }
    ensures ok { OnOk result (HasSaid (IsAnswerTo fitted.now here asked) (writer_of (O.written out.old) (O.written out.new) (O.broken out.new))) }
    ensures fails { IfErr result (λ e. HasNotSaid (IsAnswerTo fitted.now here asked) e (writer_of (O.written out.old) (O.written out.new) (O.broken out.new))) }
{
    match asked {
        Asked::Object(object) => {
            let version = None;
            say(alloc, fitted, &VersionsQuestion { object, version }, out)
        }
        Asked::Version(object, version) => {
            let version = Some(version);
            say(alloc, fitted, &VersionsQuestion { object, version }, out)
        }
        Asked::Word(object, word) => say(alloc, fitted, &WordQuestion { object, word }, out),
        Asked::Stale => say(alloc, fitted, &RestsQuestion, out),
        Asked::Event(thread, event) => say(alloc, fitted, &event_question(thread, event), out),
        Asked::LastEvent => say_last(alloc, fitted, here, out),
        Asked::Events => say(alloc, fitted, &EventsQuestion { thread: None }, out),
        Asked::ThreadEvents(thread) => {
            let thread = Some(thread);
            say(alloc, fitted, &EventsQuestion { thread }, out)
        }
        Asked::Misspelt(form) => say_line(alloc, form.words(), out),
    }
}
