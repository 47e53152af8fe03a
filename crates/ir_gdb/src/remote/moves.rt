//! Moves, and the stops that end them.

ghost use Rattle.std.specs.Prelude.{◌≡◌, ◌<◌, ◌≤◌, ◌+◌, ◌++◌, true, false, OnOk, OnErr, IfSome, List, ℕ, option_map, vec_len, vec_capacity};
ghost use Rattle.ir_cut.specs.Positions.{EachRun, threads_of};
ghost use Rattle.ir_timeline.specs.Hand.{IsCutOf};
ghost use Rattle.ir_gdb.specs.Reads.{thread_of_id};
ghost use Rattle.ir_gdb.specs.Serving.{IsRemoteThere};
ghost use Rattle.ir_gdb.specs.Stub.{Stub, stub_spoken};
ghost use Rattle.ir_gdb.specs.Stops.{direction_of};
ghost use Rattle.ir_gdb.specs.Together.{Halt, halt, MovesAlone};
ghost use Rattle.ir_gdb.specs.Moves.{stop_with, told_text, after_told, interrupted_at, all_at_stop, arrived, moving, moving_of, MotionLeads, Moves, together_after, with_together};
ghost use Rattle.ir_gdb.specs.Replies.{RepliesToMove};

use crate::ending::{ended, is_over};
use crate::remote::{Remote, thread_of_id};
use crate::stopped::{Moving, Told};
use ir_command::Direction;
use ir_cut::Cut;
use ir_mach::Mach;
use ir_object::Hands;
use ir_packet::{Motion, Mover, Reason, Reply, Stop, put_stop, put_text, reply_text};
use std::alloc::AllocError;

// The direction of a motion.
pub(crate) fn direction_of(motion: Motion) -> Direction
    ensures { result ≡ direction_of motion }
{
    match motion {
        Motion::Step | Motion::Range(_, _) | Motion::Continue => Direction::Forwards,
        Motion::StepBack | Motion::ContinueBack => Direction::Backwards,
    }
}

// A stop, with the registers of its thread.
fn stop_with(told: Told, mach: &Mach) -> Stop
    requires { told.thread < 16 }
    ensures { result ≡ stop_with told mach.now }
{
    Stop {
        interrupted: told.interrupted,
        thread: told.thread + 1,
        reason: told.reason,
        pc: mach.pc(),
        sp: mach.reg(2),
        fp: mach.reg(8),
        ra: mach.reg(1),
    }
}

impl Remote {
    // Puts the last stop at the end.
    fn put_told(&self, out: &mut Vec<u8>)
        requires there { IsRemoteThere self.now }
        requires room { vec_len out.old + 96 ≤ vec_capacity out.old }
        ensures bytes { EachRun self.now.stub.desk.fitted (λ run. out.new.items ≡ out.old.items ++ told_text run self.now.stub) }
        ensures capacity { vec_capacity out.new ≡ vec_capacity out.old }
    {
        let thread = self.thread(self.told.thread);
        put_stop(out, &stop_with(self.told, thread.mach()));
    }

    /// `?`: puts the last stop at the end.
    ///
    /// # Errors
    /// Out of memory.
    pub fn reason<H: Hands>(&mut self, hands: &H, out: &mut Vec<u8>) -> Result<(), AllocError>
        requires { vec_len out.old + 96 ≤ vec_capacity out.old }
        ensures stub { self.new.stub ≡ self.old.stub }
        ensures ok { OnOk result (EachRun self.old.stub.desk.fitted (λ run. out.new.items ≡ out.old.items ++ told_text run self.old.stub)) }
        ensures err { OnErr result (out.new.items ≡ out.old.items) }
        ensures lacks { OnErr result (self.old.stub.desk.fresh ≡ false) }
        ensures capacity { vec_capacity out.new ≡ vec_capacity out.old }
    {
        self.be_here(hands)?;
        self.put_told(out);
        Ok(())
    }

    // A thread has stopped: it is current and general then.
    fn tell(&mut self, told: Told)
        requires { told.thread < threads_of self.old.stub.desk.fitted }
        ensures stub { self.new.stub ≡ after_told self.old.stub told }
        ensures state { self.new.state ≡ self.old.state }
    {
        self.told = told;
        self.general = told.thread;
        self.current = told.thread;
        self.interrupted = false;
    }

    // All threads go to a cut, where one of them stops.
    pub(crate) fn settle<H: Hands>(
        &mut self,
        hands: &H,
        cut: Cut,
        thread: u32,
        reason: Reason,
    ) -> Result<(), AllocError>
        requires cut { IsCutOf self.old.stub.desk.fitted cut }
        requires thread { thread < threads_of self.old.stub.desk.fitted }
        ensures ok { OnOk result (self.new.stub ≡ all_at_stop self.old.stub (halt thread cut reason)) }
        ensures err { OnErr result (self.new.stub ≡ stub_spoken self.old.stub) }
    {
        self.debugger.go_to(hands, cut)?;
        let interrupted = false;
        self.tell(Told {
            interrupted,
            thread,
            reason,
        });
        Ok(())
    }

    // Puts the last stop at the end, just after a move.
    pub(crate) fn put_stop_here<H: Hands>(&mut self, hands: &H, out: &mut Vec<u8>)
        requires moved { self.old.stub.desk.fresh ≡ true }
        requires room { vec_len out.old + 96 ≤ vec_capacity out.old }
        ensures stub { self.new.stub ≡ self.old.stub }
        ensures bytes { EachRun self.old.stub.desk.fitted (λ run. out.new.items ≡ out.old.items ++ told_text run self.old.stub) }
        ensures capacity { vec_capacity out.new ≡ vec_capacity out.old }
    {
        match self.reason(hands, out) {
            Ok(()) => {}
            Err(AllocError) => unreachable!(),
        }
    }

    // A move of one thread, which no other stops.
    pub(crate) fn move_alone<H: Hands>(
        &mut self,
        hands: &H,
        thread: u32,
        motion: Motion,
    ) -> Result<(), AllocError>
        requires { thread < threads_of self.old.stub.desk.fitted }
        ensures ok { OnOk result ((h : Halt) × EachRun self.old.stub.desk.fitted (λ run. MovesAlone run self.old.stub thread motion h) × (self.new.stub ≡ all_at_stop self.old.stub h)) }
        ensures err { OnErr result (self.new.stub ≡ stub_spoken self.old.stub) }
    {
        let to = self.stop_of(hands, thread, motion)?;
        let direction = direction_of(motion);
        let alloc = hands.alloc();
        let cut = self.cut_to(alloc, thread, direction, to.position)?;
        self.settle(hands, cut, thread, to.reason)
    }

    // The thread of an id that moves.
    fn moving(&self, among: bool, id: u32) -> Option<Moving>
        ensures { result ≡ option_map (moving among) (thread_of_id self.now.stub.desk.fitted id) }
    {
        let thread = thread_of_id(self.debugger.fitted(), id)?;
        Some(Moving { thread, among })
    }

    // The thread that moves, and whether others may be stopped; none if there is no such thread.
    fn moving_of(&self, mover: Mover) -> Option<Moving>
        ensures value { result ≡ moving_of self.now.stub mover }
        ensures thread { IfSome result (λ m. m.thread < threads_of self.now.stub.desk.fitted) }
    {
        let current = Moving {
            thread: self.current,
            among: true,
        };
        match mover {
            Mover::Chosen => match self.chosen {
                Some(thread) => Some(Moving {
                    thread,
                    among: false,
                }),
                None => Some(current),
            },
            Mover::Any => Some(current),
            Mover::Alone(id) => self.moving(false, id),
            Mover::Among(id) => self.moving(true, id),
        }
    }

    // A thread that gdb has interrupted stays where it is.
    fn stay<H: Hands>(&mut self, hands: &H, thread: u32) -> Result<(), AllocError>
        requires { thread < threads_of self.old.stub.desk.fitted }
        ensures ok { OnOk result (self.new.stub ≡ after_told self.old.stub (interrupted_at thread)) }
        ensures there { OnOk result (IsRemoteThere self.new) }
        ensures err { OnErr result (self.new.stub ≡ stub_spoken self.old.stub) }
    {
        let Ok(_) = self.be_here(hands) else {
            self.speak();
            return Err(AllocError);
        };
        let interrupted = true;
        let reason = Reason::Step;
        self.tell(Told {
            interrupted,
            thread,
            reason,
        });
        Ok(())
    }

    // A thread moves, and the others as far as they must or up to a stop.
    fn travel<H: Hands>(&mut self, hands: &H, who: Moving, motion: Motion) -> Result<(), AllocError>
        requires { who.thread < threads_of self.old.stub.desk.fitted }
        ensures ok { OnOk result ((h : Halt) × EachRun self.old.stub.desk.fitted (λ run. MotionLeads run self.old.stub who.among who.thread motion h) × (self.new.stub ≡ all_at_stop self.old.stub h)) }
        ensures err { OnErr result (self.new.stub ≡ stub_spoken self.old.stub) }
    {
        if who.among {
            self.move_among(hands, who.thread, motion)
        } else {
            self.lead_alone(hands, who.thread, motion)
        }
    }

    // A thread moves, and gdb is told where it stops, or of the bad end to which the move has come.
    fn arrive<H: Hands>(&mut self, hands: &H, who: Moving, motion: Motion) -> Result<(), AllocError>
        requires { who.thread < threads_of self.old.stub.desk.fitted }
        ensures ok { OnOk result
            ((h : Halt) × EachRun self.old.stub.desk.fitted (λ run. MotionLeads run self.old.stub who.among who.thread motion h)
            × (self.new.stub ≡ arrived self.old.stub who.among h)) }
        ensures err { OnErr result (self.new.stub ≡ stub_spoken self.old.stub) }
    {
        let Ok(from) = self.here() else {
            self.speak();
            return Err(AllocError);
        };
        self.travel(hands, who, motion)?;
        let to = self.debugger.at();
        let thread = self.told.thread;
        let out = who.among && is_over(self.told.reason);
        if let Some(told) = ended(self.debugger.fitted(), &from, to, thread, out) {
            self.tell(told);
        }
        Ok(())
    }

    // Whether gdb moves the threads together, as this move says.
    fn together_after(&self, who: Moving, motion: Motion) -> bool
        ensures { result ≡ together_after self.now.stub who motion }
    {
        who.among || self.after_alone(who.thread, motion)
    }

    // A thread moves, or is interrupted before it does; and the stop is put at the end.
    fn carry_out<H: Hands>(
        &mut self,
        hands: &H,
        who: Moving,
        motion: Motion,
        out: &mut Vec<u8>,
    ) -> Result<(), AllocError>
        requires room { vec_len out.old + 96 ≤ vec_capacity out.old }
        requires thread { who.thread < threads_of self.old.stub.desk.fitted }
        ensures ok { OnOk result
            ((after : Stub)
            × EachRun self.old.stub.desk.fitted
            (λ run. Moves run self.old.stub who motion after × (out.new.items ≡ out.old.items ++ told_text run after))
            × (self.new.stub ≡ after)) }
        ensures err { OnErr result ((self.new.stub ≡ stub_spoken self.old.stub) × (out.new.items ≡ out.old.items)) }
        ensures capacity { vec_capacity out.new ≡ vec_capacity out.old }
    {
        if self.interrupted {
            self.stay(hands, who.thread)?;
            self.put_told(out);
            return Ok(());
        }
        let together = self.together_after(who, motion);
        self.arrive(hands, who, motion)?;
        self.together = together;
        self.put_stop_here(hands, out);
        Ok(())
    }

    /// A move: puts the stop that ends it at the end.
    ///
    /// # Errors
    /// Out of memory, and nothing has moved.
    pub fn make_move<H: Hands>(
        &mut self,
        hands: &H,
        motion: Motion,
        mover: Mover,
        out: &mut Vec<u8>,
    ) -> Result<(), AllocError>
        requires { vec_len out.old + 96 ≤ vec_capacity out.old }
        ensures ok { OnOk result
            ((text : List ℕ)
            × EachRun self.old.stub.desk.fitted
            (λ run. RepliesToMove (moving_of self.old.stub mover) run self.old.stub motion text self.new.stub)
            × (out.new.items ≡ out.old.items ++ text)) }
        ensures err { OnErr result ((self.new.stub ≡ stub_spoken self.old.stub) × (out.new.items ≡ out.old.items)) }
        ensures capacity { vec_capacity out.new ≡ vec_capacity out.old }
    {
        self.has_run();
        let Some(who) = self.moving_of(mover) else {
            put_text(out, reply_text(Reply::NotPermitted));
            return Ok(());
        };
        self.carry_out(hands, who, motion, out)
    }
}
