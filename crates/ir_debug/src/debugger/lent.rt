//! What a debugger lends to another front than a session's: the run at any cut, and searches with points that aren't its own.

ghost use Rattle.std.specs.Prelude.{◌≡◌, ◌<◌, ◌≤◌, length, None, Some, IfOk, IfSome, MatchOption, OnOk};
ghost use Rattle.ir_cut.specs.Positions.{EachRun, IsConsistentCut, cut_of, last_of, threads_of};
ghost use Rattle.ir_weave.specs.Standing.{StandsAtCut};
ghost use Rattle.ir_hits.specs.Watchable.{AreWatchable};
ghost use Rattle.ir_hits.specs.Searching.{IsNextHit};
ghost use Rattle.ir_hits.specs.Hits.{Finds};
ghost use Rattle.ir_timeline.specs.Hand.{IsCutOf};
ghost use Rattle.ir_debug.specs.Machine.{kept_cut, spoken, StopsAt};

use crate::debugger::Debugger;
use crate::destinations::stop_at;
use crate::kept::kept_cut;
use ir_command::{Direction, Hit};
use ir_cut::Cut;
use ir_hits::NumberedPoint;
use ir_object::Hands;
use std::alloc::{AllocError, Global};

impl Debugger {
    /// Counts as an answer that is no move's.
    pub fn speak(&mut self)
        ensures { self.new.desk ≡ spoken self.old.desk }
    {
        self.fresh = false;
    }

    /// The kept cut of a number, if there is one.
    pub fn kept_cut(&self, number: u32) -> Option<&Cut>
        ensures value { MatchOption result (kept_cut self.now.desk.kept number ≡ None) (λ cut. kept_cut self.now.desk.kept number ≡ Some cut.now) }
        ensures cuts { IfSome result (λ cut. IsCutOf self.now.desk.fitted cut.now) }
    {
        kept_cut(self.kept.as_slice(), number)
    }

    /// The cut at which all threads are when one that moves from the debugger's cut in this direction is at a position.
    ///
    /// # Errors
    /// Out of memory.
    pub fn cut_with(
        &self,
        alloc: Global,
        thread: u32,
        direction: Direction,
        position: u64,
    ) -> Result<Cut, AllocError>
        requires thread { thread < threads_of self.now.desk.fitted }
        requires within { position ≤ last_of self.now.desk.fitted thread }
        ensures stops { IfOk result (λ c. EachRun self.now.desk.fitted (λ run. StopsAt run self.now.desk.fitted self.now.desk.at thread direction position c)) }
        ensures size { IfOk result (λ c. length c ≡ threads_of self.now.desk.fitted) }
        ensures consistent { IfOk result (λ c. IsConsistentCut self.now.desk.fitted c) }
    {
        let fitted = self.timeline.fitted();
        let t = thread as usize;
        stop_at(alloc, fitted, &self.at, t, direction, position)
    }

    /// Brings the run in hand to a cut that isn't the debugger's, which stays.
    ///
    /// # Errors
    /// Out of memory.
    pub fn visit<H: Hands>(&mut self, hands: &H, cut: &Cut) -> Result<(), AllocError>
        requires { IsCutOf self.old.desk.fitted cut.now }
        ensures desk { self.new.desk ≡ spoken self.old.desk }
        ensures there { OnOk result (StandsAtCut self.new.desk.fitted (cut_of cut.now) self.new.state) }
    {
        self.fresh = false;
        self.timeline.go_to(hands, cut)
    }

    /// The hit that a thread finds from its position upwards or downwards, by these points in the place of the debugger's.
    ///
    /// # Errors
    /// Out of memory.
    pub fn search<H: Hands>(
        &mut self,
        hands: &H,
        thread: u32,
        direction: Direction,
        points: &[NumberedPoint],
    ) -> Result<Option<Hit>, AllocError>
        requires thread { thread < threads_of self.old.desk.fitted }
        requires points { AreWatchable points.now }
        ensures desk { self.new.desk ≡ spoken self.old.desk }
        ensures finds { IfOk result (λ hit. EachRun self.old.desk.fitted (λ run. Finds run self.old.desk.fitted points.now thread (cut_of self.old.desk.at thread) direction hit)) }
    {
        self.fresh = false;
        let at = &self.at;
        self.timeline.search(hands, at, thread, direction, points)
    }

    /// The hit that a thread finds from its position in a cut upwards, at most at another position.
    ///
    /// # Errors
    /// Out of memory.
    pub fn search_up_to<H: Hands>(
        &mut self,
        hands: &H,
        from: &Cut,
        thread: u32,
        to: u64,
        points: &[NumberedPoint],
    ) -> Result<Option<Hit>, AllocError>
        requires cut { IsCutOf self.old.desk.fitted from.now }
        requires thread { thread < threads_of self.old.desk.fitted }
        requires within { (cut_of from.now thread ≤ to) × (to ≤ last_of self.old.desk.fitted thread) }
        requires points { AreWatchable points.now }
        ensures desk { self.new.desk ≡ spoken self.old.desk }
        ensures finds { IfOk result (λ hit. EachRun self.old.desk.fitted (λ run. IsNextHit self.old.desk.fitted run points.now thread (cut_of from.now thread) to hit)) }
    {
        self.fresh = false;
        self.timeline.search_up_to(hands, from, thread, to, points)
    }
}
