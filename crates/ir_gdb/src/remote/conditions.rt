//! Searches upwards in which a breakpoint with conditions stops a thread only if one of them is met where all threads come to. A hit that is none is
//! passed here, and not by gdb.

ghost use Rattle.std.specs.Prelude.{◌≡◌, ◌≤◌, ◌<◌, ◌+◌, length, IfOk, IfSome};
ghost use Rattle.ir_cut.specs.Positions.{EachRun, cut_of, threads_of, last_of};
ghost use Rattle.ir_debug.specs.Machine.{StopsAt};
ghost use Rattle.ir_timeline.specs.Hand.{IsCutOf};
ghost use Rattle.ir_weave.specs.Standing.{StandsAtCut};
ghost use Rattle.ir_hits.specs.Hits.{IsLowest, IsFirstHit};
ghost use Rattle.ir_hits.specs.Searching.{IsNextHit};
ghost use Rattle.ir_hits.specs.Watchable.{AreWatchable};
ghost use Rattle.ir_command.specs.declared.command.Direction.TheVariants.{Forwards};
ghost use Rattle.ir_gdb.specs.Conditions.{first_met_at, is_plain_hit, StopsUpwards, IsStopAt, IsNextStop, IsFirstStop};
ghost use Rattle.ir_gdb.specs.Conditions as conditions;
ghost use Rattle.ir_gdb.specs.Guards.{guard_offset};
ghost use Rattle.ir_gdb.specs.Points.{upwards_of};
ghost use Rattle.ir_gdb.specs.Sight.{seen_in};
ghost use Rattle.ir_gdb.specs.Stub.{stub_spoken};
ghost use Rattle.ir_gdb.specs.Stops.{position_of};

use crate::guarded::{GUARD_OFFSET, Guarded, has_guard};
use crate::remote::Remote;
use crate::sight::{Sight, any_holds};
use ir_command::{Direction, Hit};
use ir_cut::Cut;
use ir_hits::NumberedPoint;
use ir_object::Hands;
use std::alloc::AllocError;

// Whether a breakpoint with conditions stops a thread at an address: one of them is met.
fn is_met_at(guarded: &Guarded, address: u32, sight: &Sight<'_>) -> bool
    ensures { result ≡ conditions.is_met_at (seen_in sight.now) address guarded.now }
{
    guarded.is_guarded()
        && guarded.point().address == address
        && any_holds(sight, guarded.conditions())
}

// The place of the first that does.
#[tactic(auto, unfolding(crate::specs::Conditions::first_met_place))]
fn first_met_place(breaks: &[Guarded], address: u32, sight: &Sight<'_>) -> Option<u32>
    requires { length breaks.now ≤ 64 }
    ensures met { result ≡ conditions.first_met_place (seen_in sight.now) address breaks.now }
    ensures place { IfSome result (λ place. place < length breaks.now) }
{
    match breaks {
        [] => None,
        [first, rest @ ..] => {
            if is_met_at(first, address, sight) {
                return Some(0);
            }
            let place = first_met_place(rest, address, sight)?;
            Some(place + 1)
        }
    }
}

// The hit of the breakpoint with conditions at a place, behind this many points.
pub(crate) fn guarded_hit(position: u64, before: u32, place: u32) -> Hit
    requires { before + place ≤ 64 }
    ensures { result ≡ record { position = position; number = before + place + guard_offset } }
{
    Hit {
        position,
        number: before + place + GUARD_OFFSET,
    }
}

// Whether a hit is none of a breakpoint with conditions, or there is no hit.
pub(crate) fn is_plain(found: Option<Hit>) -> bool
    ensures { result ≡ is_plain_hit found }
{
    match found {
        None => true,
        Some(hit) => !has_guard(hit.number),
    }
}

impl Remote {
    // The hit that a thread finds from its position in a cut upwards, at most at another position.
    pub(crate) fn next_hit<H: Hands>(
        &mut self,
        hands: &H,
        from: &Cut,
        thread: u32,
        to: u64,
        points: &[NumberedPoint],
    ) -> Result<Option<Hit>, AllocError>
        requires cut { IsCutOf self.old.stub.desk.fitted from.now }
        requires thread { thread < threads_of self.old.stub.desk.fitted }
        requires within { (cut_of from.now thread ≤ to) × (to ≤ last_of self.old.stub.desk.fitted thread) }
        requires points { AreWatchable points.now }
        ensures stub { self.new.stub ≡ stub_spoken self.old.stub }
        ensures finds { IfOk result (λ hit. EachRun self.old.stub.desk.fitted (λ run. IsNextHit self.old.stub.desk.fitted run points.now thread (cut_of from.now thread) to hit)) }
        ensures between { IfOk result (λ hit. IfSome hit (λ h. (cut_of from.now thread < h.position) × (h.position ≤ to))) }
    {
        self.has_run();
        self.debugger.search_up_to(hands, from, thread, to, points)
    }

    // The place of the first breakpoint with conditions at a thread's pc of which one is met, where all threads are.
    fn met_here(&self, cut: &Cut, thread: u32) -> Option<u32>
        requires there { StandsAtCut self.now.stub.desk.fitted (cut_of cut.now) self.now.state }
        requires thread { thread < threads_of self.now.stub.desk.fitted }
        ensures met { EachRun self.now.stub.desk.fitted (λ run. result ≡ first_met_at run self.now.stub cut.now thread) }
        ensures place { IfSome result (λ place. place < length self.now.stub.breaks) }
    {
        let pc = self.visited(cut, thread).mach().pc();
        let sight = self.sight(cut, thread);
        let halts = self.halts(true);
        first_met_place(halts.breaks, pc, &sight)
    }

    // The same where all threads are at a cut.
    pub(crate) fn met_break<H: Hands>(
        &mut self,
        hands: &H,
        cut: &Cut,
        thread: u32,
    ) -> Result<Option<u32>, AllocError>
        requires cut { IsCutOf self.old.stub.desk.fitted cut.now }
        requires thread { thread < threads_of self.old.stub.desk.fitted }
        ensures stub { self.new.stub ≡ stub_spoken self.old.stub }
        ensures met { IfOk result (λ place. EachRun self.old.stub.desk.fitted (λ run. place ≡ first_met_at run self.old.stub cut.now thread)) }
        ensures place { IfOk result (λ place. IfSome place (λ place. place < length self.old.stub.breaks)) }
    {
        self.debugger.visit(hands, cut)?;
        let place = self.met_here(cut, thread);
        Ok(place)
    }

    // The stop of a thread that has come to a cut, where this is the lowest number that hits it.
    fn decide<H: Hands>(
        &mut self,
        hands: &H,
        cut: &Cut,
        thread: u32,
        hit: Hit,
        watched: bool,
    ) -> Result<Option<Hit>, AllocError>
        requires cut { IsCutOf self.old.stub.desk.fitted cut.now }
        requires thread { thread < threads_of self.old.stub.desk.fitted }
        requires there { cut_of cut.now thread ≡ hit.position }
        requires comes { EachRun self.old.stub.desk.fitted (λ run. StopsAt run self.old.stub.desk.fitted self.old.stub.desk.at thread Forwards hit.position cut.now) }
        requires lowest { EachRun self.old.stub.desk.fitted (λ run. IsLowest self.old.stub.desk.fitted run (upwards_of self.old.stub thread watched) thread hit.position hit.number) }
        ensures stub { self.new.stub ≡ stub_spoken self.old.stub }
        ensures stop { IfOk result (λ stop. EachRun self.old.stub.desk.fitted (λ run. IsStopAt (StopsUpwards run self.old.stub thread watched) hit.position stop)) }
    {
        if is_plain(Some(hit)) {
            self.speak();
            return Ok(Some(hit));
        }
        let before = self.watches_if(watched).len() as u32;
        let Some(place) = self.met_break(hands, cut, thread)? else {
            return Ok(None);
        };
        Ok(Some(guarded_hit(hit.position, before, place)))
    }

    // Where a point stops a thread next, at most at a position. Each cut is found from the one before: found from the thread's own, each
    // would take time linear in all entries up to it.
    pub(crate) fn next_stop<H: Hands>(
        &mut self,
        hands: &H,
        thread: u32,
        to: u64,
        watched: bool,
    ) -> Result<Option<Hit>, AllocError>
        requires thread { thread < threads_of self.old.stub.desk.fitted }
        requires within { (position_of self.old.stub thread ≤ to) × (to ≤ last_of self.old.stub.desk.fitted thread) }
        ensures stub { self.new.stub ≡ stub_spoken self.old.stub }
        ensures stop { IfOk result (λ hit. EachRun self.old.stub.desk.fitted (λ run. IsNextStop (StopsUpwards run self.old.stub thread watched) (position_of self.old.stub thread) to hit)) }
    {
        self.speak();
        let alloc = hands.alloc();
        let points = self.upwards(alloc, thread, watched)?;
        let points = points.as_slice();
        let mut position = self.position(thread);
        let mut at = self.here()?;
        'hits: while position < to {
            let found = self.next_hit(hands, &at, thread, to, points)?;
            let Some(hit) = found else {
                return Ok(None);
            };
            at = self.cut_on(alloc, &at, thread, hit.position)?;
            let decided = self.decide(hands, &at, thread, hit, watched)?;
            if let Some(stop) = decided {
                return Ok(Some(stop));
            }
            position = hit.position;
        }
        Ok(None)
    }

    // Where a point stops a thread first. The search for the first hit keeps states on its way.
    pub(crate) fn first_stop_above<H: Hands>(
        &mut self,
        hands: &H,
        thread: u32,
        watched: bool,
    ) -> Result<Option<Hit>, AllocError>
        requires { thread < threads_of self.old.stub.desk.fitted }
        ensures stub { self.new.stub ≡ stub_spoken self.old.stub }
        ensures stop { IfOk result (λ hit. EachRun self.old.stub.desk.fitted (λ run. IsFirstStop (StopsUpwards run self.old.stub thread watched) (position_of self.old.stub thread) hit)) }
    {
        self.has_run();
        self.speak();
        let points = self.upwards(hands.alloc(), thread, watched)?;
        let found = self.first_hit(hands, thread, points.as_slice())?;
        if is_plain(found) {
            return Ok(found);
        }
        self.position(thread);
        let last = self.last(thread);
        self.next_stop(hands, thread, last, watched)
    }

    // The first hit of a thread above its position.
    fn first_hit<H: Hands>(
        &mut self,
        hands: &H,
        thread: u32,
        points: &[NumberedPoint],
    ) -> Result<Option<Hit>, AllocError>
        requires thread { thread < threads_of self.old.stub.desk.fitted }
        requires points { AreWatchable points.now }
        ensures stub { self.new.stub ≡ stub_spoken self.old.stub }
        ensures finds { IfOk result (λ hit. EachRun self.old.stub.desk.fitted (λ run. IsFirstHit self.old.stub.desk.fitted run points.now thread (position_of self.old.stub thread) hit)) }
    {
        self.debugger
            .search(hands, thread, Direction::Forwards, points)
    }
}
