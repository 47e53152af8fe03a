//! Where threads are, and the cuts that their moves lead to.

ghost use Rattle.std.specs.Prelude.{◌≡◌, ◌<◌, ◌≤◌, IfOk};
ghost use Rattle.ir_cut.specs.Positions.{EachRun, cut_of, threads_of, last_of};
ghost use Rattle.ir_command.specs.declared.command.Direction.TheVariants.{Forwards};
ghost use Rattle.ir_debug.specs.Machine.{StopsAt};
ghost use Rattle.ir_timeline.specs.Hand.{IsCutOf};
ghost use Rattle.ir_gdb.specs.Stops.{position_of};
ghost use Rattle.ir_gdb.specs.Together.{Comes};

use crate::remote::Remote;
use ir_command::Direction;
use ir_cut::{Cut, greatest_exact, least};
use ir_timeline::last_position;
use std::alloc::{AllocError, Global};

impl Remote {
    // The position of a thread.
    pub fn position(&self, thread: u32) -> u64
        requires { thread < threads_of self.now.stub.desk.fitted }
        ensures value { result ≡ position_of self.now.stub thread }
        ensures within { result ≤ last_of self.now.stub.desk.fitted thread }
    {
        self.debugger.fitted().known();
        self.debugger.at().position(thread as usize)
    }

    // Its last position.
    pub fn last(&self, thread: u32) -> u64
        requires { thread < threads_of self.now.stub.desk.fitted }
        ensures { result ≡ last_of self.now.stub.desk.fitted thread }
    {
        last_position(self.debugger.fitted(), thread as usize)
    }

    // The cut at which all threads are.
    pub(crate) fn here(&self) -> Result<Cut, AllocError>
        ensures value { IfOk result (λ cut. cut ≡ self.now.stub.desk.at) }
        ensures cut { IfOk result (λ cut. IsCutOf self.now.stub.desk.fitted cut) }
    {
        self.debugger.fitted().known();
        self.debugger.at().copy()
    }

    // The cut at which all threads are when one has come to a position by its own steps, and the others as far as they must.
    pub(crate) fn cut_to(
        &self,
        alloc: Global,
        thread: u32,
        direction: Direction,
        position: u64,
    ) -> Result<Cut, AllocError>
        requires thread { thread < threads_of self.now.stub.desk.fitted }
        requires within { position ≤ last_of self.now.stub.desk.fitted thread }
        ensures comes { IfOk result (λ cut. EachRun self.now.stub.desk.fitted (λ run. Comes run self.now.stub direction thread position cut)) }
        ensures cut { IfOk result (λ cut. IsCutOf self.now.stub.desk.fitted cut) }
    {
        self.debugger.cut_with(alloc, thread, direction, position)
    }

    // The cut at which all threads are when one has advanced from a cut to a position, and is there. Takes time linear in the
    // entries between both cuts and the logarithm of the entries before.
    pub(crate) fn cut_on(
        &self,
        alloc: Global,
        from: &Cut,
        thread: u32,
        position: u64,
    ) -> Result<Cut, AllocError>
        requires thread { thread < threads_of self.now.stub.desk.fitted }
        requires from { IsCutOf self.now.stub.desk.fitted from.now }
        requires within { (cut_of from.now thread ≤ position) × (position ≤ last_of self.now.stub.desk.fitted thread) }
        ensures cut { IfOk result (λ cut. IsCutOf self.now.stub.desk.fitted cut) }
        ensures there { IfOk result (λ cut. cut_of cut thread ≡ position) }
        ensures least { IfOk result (λ cut. EachRun self.now.stub.desk.fitted (λ run. StopsAt run self.now.stub.desk.fitted from.now thread Forwards position cut)) }
    {
        let fitted = self.debugger.fitted();
        let t = thread as usize;
        least(alloc, fitted, from, t, position)
    }

    // The cut at which all threads are when one has gone back to a position, and is there.
    pub(crate) fn cut_behind(
        &self,
        alloc: Global,
        thread: u32,
        position: u64,
    ) -> Result<Cut, AllocError>
        requires thread { thread < threads_of self.now.stub.desk.fitted }
        requires within { (position ≤ position_of self.now.stub thread) × (position ≤ last_of self.now.stub.desk.fitted thread) }
        ensures cut { IfOk result (λ cut. IsCutOf self.now.stub.desk.fitted cut) }
        ensures there { IfOk result (λ cut. cut_of cut thread ≡ position) }
    {
        greatest_exact();
        self.debugger.fitted().known();
        let backwards = Direction::Backwards;
        self.debugger.cut_with(alloc, thread, backwards, position)
    }
}
