//! What gdb is connected to.

ghost use Rattle.std.specs.Prelude.{◌≡◌, ◌<◌};
ghost use Rattle.ir_fit.specs.Fit.{HasRun};
ghost use Rattle.ir_cut.specs.Positions.{threads_of};
ghost use Rattle.ir_gdb.specs.Serving.{Serving};
ghost use Rattle.ir_gdb.specs.Stub.{IsStub};
ghost use Rattle.ir_gdb.specs.Reads.{thread_of_id};

use crate::holders::{Breaks, Watches};
use crate::stopped::Told;
use ir_cut::Cut;
use ir_debug::Debugger;
use ir_fit::Fitted;
use ir_object::Hands;
use ir_packet::{Reason, Reply, Who};
use ir_thread::Thread;
use ir_timeline::thread_count;
use std::alloc::{AllocError, Global};
use std::marker::Model;

mod among;
mod below;
mod conditions;
mod cuts;
mod lines;
mod memory;
mod moves;
mod over;
mod points;
mod questions;
mod reads;
mod replies;
mod restarts;
mod stops;
mod texts;
mod together;

/// A recorded run that gdb looks at: the debugger of a session, gdb's threads and points, and the last stop.
#[derive(Drop)]
pub struct Remote {
    debugger: Debugger,
    general: u32,
    chosen: Option<u32>,
    current: u32,
    together: bool,
    breaks: Breaks,
    watches: Watches,
    told: Told,
    interrupted: bool,
    extended: bool,
}

impl Model for Remote {
    ghost Value = { Serving };

    ghost view = { λ r. record {
      stub = record {
        desk = r.debugger.desk;
        general = r.general;
        chosen = r.chosen;
        current = r.current;
        together = r.together;
        breaks = r.breaks;
        watches = r.watches;
        told = r.told;
        interrupted = r.interrupted;
        extended = r.extended;
      };
      state = r.debugger.state;
    } };

    ghost invariant = { λ r. IsStub (record {
      desk = r.debugger.desk;
      general = r.general;
      chosen = r.chosen;
      current = r.current;
      together = r.together;
      breaks = r.breaks;
      watches = r.watches;
      told = r.told;
      interrupted = r.interrupted;
      extended = r.extended;
    }) };
}

// There is a run of the guest with its trace, and the guest has a thread.
fn known(fitted: &Fitted)
    ensures run { HasRun fitted.now }
    ensures thread { 0 < threads_of fitted.now }
{
    fitted.known();
    fitted.image().entries();
}

// The thread of an id.
fn thread_of_id(fitted: &Fitted, id: u32) -> Option<u32>
    ensures { result ≡ thread_of_id fitted.now id }
{
    if id == 0 {
        return None;
    }
    let t = id - 1;
    if (t as usize) < thread_count(fitted) {
        return Some(t);
    }
    None
}

impl Remote {
    ghost use Rattle.std.specs.Prelude.{OnOk, OnErr, IfOk, true, false};
    ghost use Rattle.ir_cut.specs.Positions.{EachRun, cut_of, thread_at};
    ghost use Rattle.ir_weave.specs.Standing.{StandsAtCut};
    ghost use Rattle.ir_gdb.specs.Stub.{stub_of, stub_spoken};
    ghost use Rattle.ir_gdb.specs.Serving.{IsRemoteThere};
    ghost use Rattle.ir_gdb.specs.Reads.{thread_of_id, reply_to, with_current, general_reply, after_general, chosen_reply, after_chosen, current_of};

    /// A debugger, with thread 0 current and no points.
    ///
    /// # Errors
    /// Out of memory.
    pub fn new(alloc: Global, debugger: Debugger) -> Result<Remote, AllocError>
        ensures { IfOk result (λ remote. remote.stub ≡ stub_of debugger.desk) }
    {
        known(debugger.fitted());
        let breaks = Breaks::new(alloc)?;
        let watches = Watches::new(alloc)?;
        let told = Told {
            interrupted: false,
            thread: 0,
            reason: Reason::Step,
        };
        Ok(Remote {
            debugger,
            general: 0,
            chosen: None,
            current: 0,
            together: true,
            breaks,
            watches,
            told,
            interrupted: false,
            extended: false,
        })
    }

    /// The next move is answered as interrupted, and not made.
    pub fn interrupt(&mut self)
        ensures { self.new.stub ≡ record self.old.stub { interrupted = true } }
    {
        self.interrupted = true;
    }

    /// `T`: whether there is a thread of this id, which is then the current one.
    pub fn alive(&mut self, id: u32) -> Reply
        ensures reply { result ≡ reply_to (thread_of_id self.old.stub.desk.fitted id) }
        ensures stub { self.new.stub ≡ with_current self.old.stub (thread_of_id self.old.stub.desk.fitted id) }
    {
        match thread_of_id(self.debugger.fitted(), id) {
            None => Reply::NotPermitted,
            Some(t) => {
                self.current = t;
                Reply::Done
            }
        }
    }

    /// `Hg`: the thread of `g`, `p` and `m`.
    pub fn general(&mut self, who: Who) -> Reply
        ensures reply { result ≡ general_reply self.old.stub who }
        ensures stub { self.new.stub ≡ after_general self.old.stub who }
    {
        let Who::Thread(id) = who else {
            return Reply::Done;
        };
        match thread_of_id(self.debugger.fitted(), id) {
            None => Reply::NotPermitted,
            Some(t) => {
                self.general = t;
                Reply::Done
            }
        }
    }

    /// `Hc`: the thread of `s`, `c`, `bs` and `bc`.
    pub fn choose(&mut self, who: Who) -> Reply
        ensures reply { result ≡ chosen_reply self.old.stub who }
        ensures stub { self.new.stub ≡ after_chosen self.old.stub who }
    {
        let Who::Thread(id) = who else {
            self.chosen = None;
            return Reply::Done;
        };
        match thread_of_id(self.debugger.fitted(), id) {
            None => Reply::NotPermitted,
            Some(t) => {
                self.chosen = Some(t);
                Reply::Done
            }
        }
    }

    // There is a run of the guest with its trace.
    fn has_run(&self)
        ensures { HasRun self.now.stub.desk.fitted }
    {
        self.debugger.fitted().known();
    }

    // Sees that the run in hand is at the cut.
    fn be_here<H: Hands>(&mut self, hands: &H) -> Result<(), AllocError>
        ensures stub { self.new.stub ≡ self.old.stub }
        ensures there { OnOk result (IsRemoteThere self.new) }
        ensures lacks { OnErr result (self.old.stub.desk.fresh ≡ false) }
    {
        self.debugger.be_here(hands)
    }

    // A thread in hand, where all are at a cut.
    #[tactic(auto, using(crate::proofs::There::hand_thread_at_cut, crate::proofs::There::guest_thread_is_in_hand))]
    fn visited(&self, cut: &Cut, thread: u32) -> &Thread
        requires there { StandsAtCut self.now.stub.desk.fitted (cut_of cut.now) self.now.state }
        requires thread { thread < threads_of self.now.stub.desk.fitted }
        ensures { EachRun self.now.stub.desk.fitted (λ run. result.now ≡ thread_at self.now.stub.desk.fitted run thread (cut_of cut.now thread)) }
    {
        &self.debugger.threads()[thread as usize]
    }

    // A thread in hand.
    fn thread(&self, thread: u32) -> &Thread
        requires there { IsRemoteThere self.now }
        requires thread { thread < threads_of self.now.stub.desk.fitted }
        ensures { EachRun self.now.stub.desk.fitted (λ run. result.now ≡ current_of run self.now.stub thread) }
    {
        self.visited(self.debugger.at(), thread)
    }

    // The general thread in hand.
    fn general_thread(&self) -> &Thread
        requires { IsRemoteThere self.now }
        ensures { EachRun self.now.stub.desk.fitted (λ run. result.now ≡ current_of run self.now.stub self.now.stub.general) }
    {
        self.thread(self.general)
    }

    // Counts as an answer that is no move's.
    fn speak(&mut self)
        ensures { self.new.stub ≡ stub_spoken self.old.stub }
    {
        self.debugger.speak();
    }
}
