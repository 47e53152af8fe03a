//! Searches downwards in which a breakpoint with conditions stops a thread only if one of them is met where all threads come to. They look
//! at one stretch of the thread's steps after the other, downwards, and at the hits of each upwards, since a run is only replayed
//! forwards.

ghost use Rattle.std.specs.Prelude.{◌≡◌, ◌≤◌, ◌<◌, suc, IfOk, IfSome};
ghost use Rattle.ir_cut.specs.Positions.{EachRun, cut_of, threads_of, last_of};
ghost use Rattle.ir_debug.specs.Machine.{StopsAt};
ghost use Rattle.ir_timeline.specs.Hand.{IsCutOf};
ghost use Rattle.ir_hits.specs.Hits.{IsLowest, IsLastHit};
ghost use Rattle.ir_hits.specs.Watchable.{AreWatchable};
ghost use Rattle.ir_command.specs.declared.command.Direction.TheVariants.{Backwards};
ghost use Rattle.ir_gdb.specs.Conditions.{StopsDownwards, NoneStopsWithin, IsStopAt, IsLastStop};
ghost use Rattle.ir_gdb.specs.Seeking.{IsLastStopFrom};
ghost use Rattle.ir_gdb.specs.Seeking as seeking;
ghost use Rattle.ir_gdb.specs.Points.{downwards_of};
ghost use Rattle.ir_gdb.specs.Stub.{stub_spoken};
ghost use Rattle.ir_gdb.specs.Stops.{position_of};

use crate::numbered::points_downwards;
use crate::remote::Remote;
use crate::remote::conditions::{guarded_hit, is_plain};
use ir_command::{Direction, Hit, Point};
use ir_cut::{Cut, greatest};
use ir_hits::NumberedPoint;
use ir_object::Hands;
use std::alloc::{AllocError, Global};

// How many steps of a thread are looked at from one cut on.
const STEPS_LOOKED_AT: u64 = 1 << 14;

// Where a stretch begins that ends at a position.
fn stretch_start(to: u64) -> u64
    requires { 0 < to }
    ensures { result < to }
{
    to.saturating_sub(STEPS_LOOKED_AT)
}

// Of two hits the second, if there is one.
fn latest(found: Option<Hit>, next: Option<Hit>) -> Option<Hit>
    ensures { result ≡ seeking.latest found next }
{
    match next {
        None => found,
        Some(hit) => Some(hit),
    }
}

// The lower of a number and that of a point, if the point is a breakpoint of a thread at an address.
fn lower_start(point: NumberedPoint, thread: u32, pc: u32, found: Option<u32>) -> Option<u32>
    ensures { result ≡ seeking.lower_start thread pc point found }
{
    match point.point() {
        Point::Break {
            thread: other,
            address,
        } if other == thread && address == pc => match found {
            None => Some(point.number()),
            Some(least) => Some(least.min(point.number())),
        },
        _ => found,
    }
}

// The lowest of a number and those of the breakpoints of a thread at an address.
#[tactic(auto, unfolding(crate::specs::Seeking::lowest_start))]
fn lowest_start(points: &[NumberedPoint], thread: u32, pc: u32, found: Option<u32>) -> Option<u32>
    ensures { result ≡ seeking.lowest_start thread pc points.now found }
{
    match points {
        [] => found,
        [first, rest @ ..] => {
            let found = lower_start(*first, thread, pc, found);
            lowest_start(rest, thread, pc, found)
        }
    }
}

impl Remote {
    // The points of a thread for a search downwards.
    fn downwards(
        &self,
        alloc: Global,
        thread: u32,
        watched: bool,
    ) -> Result<Vec<NumberedPoint>, AllocError>
        ensures points { IfOk result (λ v. v.items ≡ downwards_of self.now.stub thread watched) }
        ensures watchable { IfOk result (λ v. AreWatchable v.items) }
    {
        points_downwards(alloc, thread, self.halts(watched))
    }

    // The cut at which all threads are when one has gone back from a cut to a position, and is there. Takes time linear in the entries
    // between both cuts and the logarithm of the entries before.
    fn cut_down(
        &self,
        alloc: Global,
        from: &Cut,
        thread: u32,
        position: u64,
    ) -> Result<Cut, AllocError>
        requires thread { thread < threads_of self.now.stub.desk.fitted }
        requires from { IsCutOf self.now.stub.desk.fitted from.now }
        requires within { position ≤ cut_of from.now thread }
        ensures cut { IfOk result (λ cut. IsCutOf self.now.stub.desk.fitted cut) }
        ensures there { IfOk result (λ cut. cut_of cut thread ≡ position) }
        ensures greatest { IfOk result (λ cut. EachRun self.now.stub.desk.fitted (λ run. StopsAt run self.now.stub.desk.fitted from.now thread Backwards position cut)) }
    {
        let fitted = self.debugger.fitted();
        let t = thread as usize;
        greatest(alloc, fitted, from, t, position)
    }

    // The stop of a thread that has gone back to a cut, where this is the lowest number that hits it.
    fn decide_below<H: Hands>(
        &mut self,
        hands: &H,
        cut: &Cut,
        thread: u32,
        hit: Hit,
        watched: bool,
    ) -> Result<Option<Hit>, AllocError>
        requires cut { IsCutOf self.old.stub.desk.fitted cut.now }
        requires thread { thread < threads_of self.old.stub.desk.fitted }
        requires there { cut_of cut.now thread ≡ hit.position }
        requires comes { EachRun self.old.stub.desk.fitted (λ run. StopsAt run self.old.stub.desk.fitted self.old.stub.desk.at thread Backwards hit.position cut.now) }
        requires lowest { EachRun self.old.stub.desk.fitted (λ run. IsLowest self.old.stub.desk.fitted run (downwards_of self.old.stub thread watched) thread hit.position hit.number) }
        ensures stub { self.new.stub ≡ stub_spoken self.old.stub }
        ensures stop { IfOk result (λ stop. EachRun self.old.stub.desk.fitted (λ run. IsStopAt (StopsDownwards run self.old.stub thread watched) hit.position stop)) }
    {
        if is_plain(Some(hit)) {
            self.speak();
            return Ok(Some(hit));
        }
        self.watches_if(watched);
        let Some(place) = self.met_break(hands, cut, thread)? else {
            return Ok(None);
        };
        Ok(Some(guarded_hit(hit.position, 0, place)))
    }

    // Where a point last stops a thread above a position and at most where it is in a cut, to which it has gone back.
    fn last_stop_from<H: Hands>(
        &mut self,
        hands: &H,
        top: &Cut,
        thread: u32,
        low: u64,
        watched: bool,
    ) -> Result<Option<Hit>, AllocError>
        requires cut { IsCutOf self.old.stub.desk.fitted top.now }
        requires thread { thread < threads_of self.old.stub.desk.fitted }
        requires within { low ≤ cut_of top.now thread }
        requires last { cut_of top.now thread ≤ last_of self.old.stub.desk.fitted thread }
        requires comes { EachRun self.old.stub.desk.fitted (λ run. StopsAt run self.old.stub.desk.fitted self.old.stub.desk.at thread Backwards (cut_of top.now thread) top.now) }
        ensures stub { self.new.stub ≡ stub_spoken self.old.stub }
        ensures stop { IfOk result (λ stop. EachRun self.old.stub.desk.fitted (λ run. IsLastStopFrom (StopsDownwards run self.old.stub thread watched) (suc low) (suc (cut_of top.now thread)) stop)) }
    {
        self.speak();
        let alloc = hands.alloc();
        let points = self.downwards(alloc, thread, watched)?;
        let points = points.as_slice();
        let to = top.position(thread as usize);
        let mut at = self.cut_down(alloc, top, thread, low)?;
        let mut position = low;
        let mut found = None;
        'hits: while position < to {
            let next = self.next_hit(hands, &at, thread, to, points)?;
            let Some(hit) = next else {
                return Ok(found);
            };
            at = self.cut_down(alloc, top, thread, hit.position)?;
            let decided = self.decide_below(hands, &at, thread, hit, watched)?;
            found = latest(found, decided);
            position = hit.position;
        }
        Ok(found)
    }

    // Where a point stops a thread at 0, if one does.
    fn stop_at_start<H: Hands>(
        &mut self,
        hands: &H,
        cut: &Cut,
        thread: u32,
        watched: bool,
    ) -> Result<Option<Hit>, AllocError>
        requires cut { IsCutOf self.old.stub.desk.fitted cut.now }
        requires thread { thread < threads_of self.old.stub.desk.fitted }
        requires there { cut_of cut.now thread ≡ 0 }
        requires steps { 0 < last_of self.old.stub.desk.fitted thread }
        requires comes { EachRun self.old.stub.desk.fitted (λ run. StopsAt run self.old.stub.desk.fitted self.old.stub.desk.at thread Backwards 0 cut.now) }
        ensures stub { self.new.stub ≡ stub_spoken self.old.stub }
        ensures stop { IfOk result (λ stop. EachRun self.old.stub.desk.fitted (λ run. IsStopAt (StopsDownwards run self.old.stub thread watched) 0 stop)) }
    {
        self.speak();
        let points = self.downwards(hands.alloc(), thread, watched)?;
        let pc = self.pc_in(hands, cut, thread)?;
        let Some(number) = lowest_start(points.as_slice(), thread, pc, None) else {
            return Ok(None);
        };
        let position = 0;
        let hit = Hit { position, number };
        self.decide_below(hands, cut, thread, hit, watched)
    }

    // Where a point last stops a thread below its position, if none does above another position.
    fn last_stop_under<H: Hands>(
        &mut self,
        hands: &H,
        thread: u32,
        under: u64,
        watched: bool,
    ) -> Result<Option<Hit>, AllocError>
        requires thread { thread < threads_of self.old.stub.desk.fitted }
        requires within { under < position_of self.old.stub thread }
        requires none { EachRun self.old.stub.desk.fitted (λ run. NoneStopsWithin (StopsDownwards run self.old.stub thread watched) (suc under) (position_of self.old.stub thread)) }
        ensures stub { self.new.stub ≡ stub_spoken self.old.stub }
        ensures stop { IfOk result (λ stop. EachRun self.old.stub.desk.fitted (λ run. IsLastStop (StopsDownwards run self.old.stub thread watched) (position_of self.old.stub thread) stop)) }
    {
        self.speak();
        self.position(thread);
        let alloc = hands.alloc();
        let here = self.here()?;
        let mut top = self.cut_down(alloc, &here, thread, under)?;
        let mut to = under;
        'stretches: while to > 0 {
            let low = stretch_start(to);
            let stop = self.last_stop_from(hands, &top, thread, low, watched)?;
            if let Some(stop) = stop {
                return Ok(Some(stop));
            }
            top = self.cut_down(alloc, &top, thread, low)?;
            to = low;
        }
        self.stop_at_start(hands, &top, thread, watched)
    }

    // The last hit of a thread below its position.
    fn last_hit<H: Hands>(
        &mut self,
        hands: &H,
        thread: u32,
        points: &[NumberedPoint],
    ) -> Result<Option<Hit>, AllocError>
        requires thread { thread < threads_of self.old.stub.desk.fitted }
        requires points { AreWatchable points.now }
        ensures stub { self.new.stub ≡ stub_spoken self.old.stub }
        ensures finds { IfOk result (λ hit. EachRun self.old.stub.desk.fitted (λ run. IsLastHit self.old.stub.desk.fitted run points.now thread (position_of self.old.stub thread) hit)) }
        ensures below { IfOk result (λ hit. IfSome hit (λ h. h.position < position_of self.old.stub thread)) }
    {
        self.has_run();
        self.debugger
            .search(hands, thread, Direction::Backwards, points)
    }

    // Where a point stops a thread last below its position. The search for the last hit of all begins at states that are kept.
    pub(crate) fn last_stop_below<H: Hands>(
        &mut self,
        hands: &H,
        thread: u32,
        watched: bool,
    ) -> Result<Option<Hit>, AllocError>
        requires { thread < threads_of self.old.stub.desk.fitted }
        ensures stub { self.new.stub ≡ stub_spoken self.old.stub }
        ensures stop { IfOk result (λ hit. EachRun self.old.stub.desk.fitted (λ run. IsLastStop (StopsDownwards run self.old.stub thread watched) (position_of self.old.stub thread) hit)) }
    {
        self.speak();
        let points = self.downwards(hands.alloc(), thread, watched)?;
        let found = self.last_hit(hands, thread, points.as_slice())?;
        if is_plain(found) {
            return Ok(found);
        }
        let Some(hit) = found else {
            return Ok(None);
        };
        self.last_stop_under(hands, thread, hit.position, watched)
    }
}
