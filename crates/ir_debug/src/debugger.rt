//! The debugger: a guest with the trace of one of its runs, at a consistent cut.

ghost use Rattle.std.specs.Prelude.{◌≡◌};
ghost use Rattle.ir_debug.specs.Debugging.{Debugging, IsDebugging};

use crate::answer::Answer;
use crate::kept::{KeptCut, MOST_KEPT};
use crate::points::Points;
use ir_command::{Command, Point, Refusal, Show};
use ir_cut::Cut;
use ir_fit::{Fitted, PassedState};
use ir_hits::NumberedPoint;
use ir_object::{Hands, Object};
use ir_text::next_line;
use ir_thread::Thread;
use ir_timeline::{Timeline, first_cut};
use std::alloc::{AllocError, Global};
use std::marker::Model;

mod keeping;
mod lent;
mod moves;

/// A debugger, which answers as the small machine does that holds a recorded run of the guest and a position of each
/// thread. Beside these it has the run in hand, at some consistent cut, which is brought to the machine's wherever an answer
/// needs it.
#[derive(Drop)]
pub struct Debugger {
    // At a cut that is kept its state is kept too, for moves and searches to begin at.
    timeline: Timeline,
    at: Cut,
    fresh: bool,
    points: Points,
    last_point: u32,
    kept: Vec<KeptCut>,
    last_kept: u32,
}

impl Model for Debugger {
    ghost Value = { Debugging };

    ghost view = { λ d. record {
      desk = record {
        fitted = d.timeline.fitted;
        at = d.at;
        fresh = d.fresh;
        points = d.points;
        last_point = d.last_point;
        kept = d.kept.items;
        last_kept = d.last_kept;
      };
      state = d.timeline.state;
    } };

    ghost invariant = { λ d. IsDebugging (record {
      desk = record {
        fitted = d.timeline.fitted;
        at = d.at;
        fresh = d.fresh;
        points = d.points;
        last_point = d.last_point;
        kept = d.kept.items;
        last_kept = d.last_kept;
      };
      state = d.timeline.state;
    }) };
}

impl Debugger {
    ghost use Rattle.ir_fit.specs.Passed.{ArePassed};
    ghost use Rattle.std.specs.Prelude.{◌<◌, ◌+◌, None, false, IfOk, OnOk, OnErr};
    ghost use Rattle.ir_cut.specs.Positions.{EachRun, threads_of};
    ghost use Rattle.ir_command.specs.declared.command.Command.TheVariants as command;
    ghost use Rattle.ir_command.specs.declared.command.Show.TheVariants as show;
    ghost use Rattle.ir_debug.specs.declared.answer.Answer.TheVariants as answer;
    ghost use Rattle.ir_debug.specs.Machine.{desk_of, spoken, refusal_of, show_text, AnswersCommand, AnswersBy};
    ghost use Rattle.ir_debug.specs.Debugging.{IsDesk, IsLast, IsThere, answer_text, with_point, without_point};

    /// A debugger with all threads at 0.
    ///
    /// # Errors
    /// Out of memory.
    pub fn open(alloc: Global, fitted: Fitted) -> Result<Debugger, AllocError>
        ensures { IfOk result (λ d. d.desk ≡ desk_of fitted) }
    {
        Debugger::open_passed(alloc, fitted, Vec::new(alloc))
    }

    /// `open`, with states that a run along the trace passed, near which moves begin.
    ///
    /// # Errors
    /// Out of memory.
    pub fn open_passed(
        alloc: Global,
        fitted: Fitted,
        passed: Vec<PassedState>,
    ) -> Result<Debugger, AllocError>
        requires { ArePassed fitted.guest fitted.recorded passed.items }
        ensures { IfOk result (λ d. d.desk ≡ desk_of fitted) }
    {
        fitted.known();
        let at = first_cut(alloc, &fitted)?;
        let mut kept = Vec::with_capacity(alloc, MOST_KEPT + 1)?;
        kept.push(KeptCut::new(0, at.copy()?))?;
        let points = Points::new(alloc)?;
        let timeline = Timeline::open(alloc, fitted, passed)?;
        Ok(Debugger {
            timeline,
            at,
            fresh: true,
            points,
            last_point: 0,
            kept,
            last_kept: 0,
        })
    }

    /// The guest and its trace.
    pub fn fitted(&self) -> &Fitted
        ensures value { result.now ≡ self.now.desk.fitted }
        ensures desk { IsDesk self.now.desk }
    {
        self.timeline.fitted()
    }

    /// The position of each thread.
    pub fn at(&self) -> &Cut
        ensures { result.now ≡ self.now.desk.at }
    {
        &self.at
    }

    /// The points that are set, the last at the end.
    pub fn points(&self) -> &[NumberedPoint]
        ensures { result.now ≡ self.now.desk.points }
    {
        self.points.as_slice()
    }

    // The last number that a point was given, or 0.
    pub(crate) fn last_point(&self) -> u32
        ensures { result ≡ self.now.desk.last_point }
    {
        self.last_point
    }

    // The last number that a kept cut was given, or 0.
    pub(crate) fn last_kept(&self) -> u32
        ensures { result ≡ self.now.desk.last_kept }
    {
        self.last_kept
    }

    /// The kept cuts, the last that was kept at the end.
    pub fn kept(&self) -> &[KeptCut]
        ensures value { result.now ≡ self.now.desk.kept }
        ensures desk { IsDesk self.now.desk }
    {
        self.kept.as_slice()
    }

    /// The threads in hand, which are at the cut only if an answer needs them, or `bring_here` has brought them there.
    pub fn threads(&self) -> &[Thread]
        ensures { result.now ≡ self.now.state.threads }
    {
        self.timeline.threads()
    }

    /// The objects in hand, at the same cut.
    pub fn objects(&self) -> &[Object]
        ensures { result.now ≡ self.now.state.objects }
    {
        self.timeline.objects()
    }

    /// Refuses a line. Nothing changes, but for what the last answer was.
    pub fn refuse(&mut self, refusal: Refusal) -> Answer
        ensures desk { self.new.desk ≡ spoken self.old.desk }
        ensures answer { result ≡ answer.Refused refusal }
    {
        self.fresh = false;
        Answer::Refused(refusal)
    }

    /// Brings the run in hand to the cut.
    ///
    /// # Errors
    /// Out of memory.
    pub fn bring_here<H: Hands>(&mut self, hands: &H) -> Result<(), AllocError>
        ensures desk { self.new.desk ≡ spoken self.old.desk }
        ensures there { OnOk result (IsThere self.new) }
        ensures lacks { OnErr result (self.old.desk.fresh ≡ false) }
    {
        self.fresh = false;
        self.timeline.go_to(hands, &self.at)
    }

    /// Takes the run in hand to the cut, and leaves the last answer as it was. After a move the run is there already.
    ///
    /// # Errors
    /// Out of memory.
    pub fn be_here<H: Hands>(&mut self, hands: &H) -> Result<(), AllocError>
        ensures desk { self.new.desk ≡ self.old.desk }
        ensures there { OnOk result (IsThere self.new) }
        ensures lacks { OnErr result (self.old.desk.fresh ≡ false) }
    {
        if self.fresh {
            return Ok(());
        }
        let at = &self.at;
        self.timeline.go_to(hands, at)
    }

    // Sets a point, and answers its number.
    fn set(&mut self, point: Point) -> u32
        requires { refusal_of self.old.desk (command.Set point) ≡ None }
        ensures number { result ≡ self.old.desk.last_point + 1 }
        ensures desk { self.new.desk ≡ with_point self.old.desk point }
    {
        self.fresh = false;
        let number = self.last_point + 1;
        self.points.set(NumberedPoint::new(number, point));
        self.last_point = number;
        number
    }

    // Takes a point away.
    fn clear(&mut self, number: u32)
        ensures { self.new.desk ≡ without_point self.old.desk number }
    {
        self.fresh = false;
        self.points.clear(number);
    }

    // The line of the next step of thread t.
    fn show_next<H: Hands>(&mut self, hands: &H, thread: u32) -> Result<Vec<u8>, AllocError>
        requires { thread < threads_of self.old.desk.fitted }
        ensures desk { self.new.desk ≡ spoken self.old.desk }
        ensures line { IfOk result (λ line. EachRun self.old.desk.fitted (λ run. line.items ≡ show_text run self.old.desk (show.Next thread))) }
    {
        self.bring_here(hands)?;
        let code = self.timeline.fitted().image().code();
        let threads = self.timeline.threads();
        next_line(hands.alloc(), code, &threads[thread as usize])
    }

    // The answer to a command that shows something, and isn't refused.
    fn answer_show<H: Hands>(&mut self, hands: &H, show: Show) -> Answer
        requires { refusal_of self.old.desk (command.Show show) ≡ None }
        ensures fitted { self.new.desk.fitted ≡ self.old.desk.fitted }
        ensures answers { EachRun self.old.desk.fitted (λ run. AnswersBy None run self.old.desk (command.Show show) (answer_text run self.new.desk result) self.new.desk) }
        ensures last { IsLast self.new result }
    {
        if let Show::Next { thread } = show {
            return match self.show_next(hands, thread) {
                Ok(line) => Answer::Next(line),
                Err(AllocError) => self.refuse(Refusal::NoMemory),
            };
        }
        match self.bring_here(hands) {
            Ok(()) => Answer::Shown(show),
            Err(AllocError) => self.refuse(Refusal::NoMemory),
        }
    }

    /// Carries out a command. A move brings the threads to the cut to which it leads, on threads of the system's. It starts
    /// from where they are, or from the nearest state that is kept at or below the cut, by `keep` or on the way of an earlier
    /// move. Before something is shown, threads that a move left elsewhere because memory ran out are brought to the cut.
    ///
    /// `cont` and `rcont` take a thread's steps again to find where a point hits it. The first continues from where the thread
    /// is, and keeps states on its way. The second looks at one window of positions after the other, downwards, each from a state
    /// that is kept.
    ///
    /// What the answer says holds of every run of the guest with the trace. A command is refused if it names a thread or an
    /// object that there isn't, the number of no point and no kept cut, or bytes that aren't all in the code or in private
    /// memory. One for a point is refused if its address is no word of these. A command is refused if it would set a 65th point,
    /// or keep a 65th cut beside the start. It is also refused if memory runs out. After `open` and after a move this happens to
    /// no command that shows something but `next`, and it never happens to one that sets or clears a point, `drop` and `kept`.
    /// A refusal leaves all positions, points and kept cuts as they were.
    pub fn command<H: Hands>(&mut self, hands: &H, command: &Command) -> Answer
        ensures fitted { self.new.desk.fitted ≡ self.old.desk.fitted }
        ensures answers { EachRun self.old.desk.fitted (λ run. AnswersCommand run self.old.desk command.now (answer_text run self.new.desk result) self.new.desk) }
        ensures last { IsLast self.new result }
    {
        if let Some(refusal) = self.refusal_of(command) {
            return self.refuse(refusal);
        }
        match *command {
            Command::Move(to) => self.answer_move(hands, to),
            Command::Continue { thread, direction } => {
                self.answer_continue(hands, thread, direction)
            }
            Command::Show(show) => self.answer_show(hands, show),
            Command::Set(point) => Answer::Set(self.set(point)),
            Command::Clear { number } => {
                self.clear(number);
                Answer::Cleared(number)
            }
            Command::Keeping(asked) => self.answer_keeping(hands, asked),
            Command::Position => {
                self.fresh = false;
                Answer::Position
            }
            Command::Quit => {
                self.fresh = false;
                Answer::Bye
            }
        }
    }
}
