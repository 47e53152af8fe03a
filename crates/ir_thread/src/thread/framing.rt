//! A thread taken apart into a frame and pages, and built from a frame and memory or pages.

ghost use Rattle.std.specs.Prelude.{◌≡◌, ◌<◌, [], length, map, true, false, IfOk};
ghost use Rattle.ir_mach.specs.Core.{memory_size};
ghost use Rattle.ir_mach.specs.Pages.{ArePages, memory_pages, page_of, page_size, pages_of};
ghost use Rattle.ir_thread.specs.Frames.{frame_of, framed_thread};

use crate::frame::Frame;
use crate::holding::roomy;
use crate::limits::MOST_OUTPUT;
use crate::thread::Thread;
use ir_mach::{Mach, joined};
use ir_runs::Access;
use std::alloc::{AllocError, Global};

// Whether the same is held.
fn same_held(first: &[Option<Access>], second: &[Option<Access>]) -> bool
    ensures same { result ≡ true → first.now ≡ second.now }
    ensures other { result ≡ false → first.now ≡ second.now → ⊥ }
{
    if first.len() != second.len() {
        return false;
    }
    for o in 0..first.len() {
        if first[o] != second[o] {
            return false;
        }
    }
    true
}

impl Thread {
    /// All of the thread but its private memory.
    ///
    /// # Errors
    /// Out of memory.
    pub fn frame(&self) -> Result<Frame, AllocError>
        ensures value { IfOk result (λ frame. frame ≡ frame_of self.now) }
        ensures memory { length self.now.core.memory ≡ memory_size }
    {
        self.mach.memory();
        let alloc = *self.output.allocator();
        Ok(Frame {
            regs: self.mach.regs_only(),
            number: self.number,
            held: self.held.clone()?,
            budget: self.budget,
            profile: self.profile,
            form: self.form,
            steps: self.steps,
            events: self.events,
            output: Vec::from_slice(alloc, self.output.as_slice())?,
            ended: self.ended,
        })
    }

    // Whether the numbers of the thread are those of a frame.
    fn has_numbers(&self, frame: &Frame) -> bool
        ensures number { result ≡ true → self.now.number ≡ frame.now.number }
        ensures budget { result ≡ true → self.now.budget ≡ frame.now.budget }
        ensures steps { result ≡ true → self.now.steps ≡ frame.now.steps }
        ensures events { result ≡ true → self.now.events ≡ frame.now.events }
        ensures other { result ≡ false → frame_of self.now ≡ frame.now → ⊥ }
    {
        self.number == frame.number
            && self.budget == frame.budget
            && self.steps == frame.steps
            && self.events == frame.events
    }

    /// Whether all of the thread but its private memory is this.
    pub fn has_frame(&self, frame: &Frame) -> bool
        ensures same { result ≡ true → frame_of self.now ≡ frame.now }
        ensures other { result ≡ false → frame_of self.now ≡ frame.now → ⊥ }
    {
        self.has_numbers(frame)
            && self.profile == frame.profile
            && self.form == frame.form
            && self.ended == frame.ended
            && same_held(self.held.as_slice(), frame.held.as_slice())
            && self.output.as_slice() == frame.output.as_slice()
            && self.mach.has_registers(&frame.regs)
    }

    /// Page i of private memory: 4,096 bytes.
    pub fn page(&self, i: u8) -> &[u8]
        requires { i < memory_pages }
        ensures value { result.now ≡ page_of self.now.core.memory i }
        ensures size { length result.now ≡ page_size }
    {
        self.mach.page(i)
    }

    // The thread of this frame on this machine, with room for all that it may print.
    fn on_machine(alloc: Global, frame: &Frame, mach: Mach) -> Result<Thread, AllocError>
        ensures { IfOk result (λ thread. thread ≡ record (framed_thread frame.now []) { core = mach }) }
    {
        let mut output = Vec::with_capacity(alloc, MOST_OUTPUT)?;
        output.extend_from_slice(frame.output.as_slice())?;
        Ok(Thread {
            mach,
            number: frame.number,
            held: roomy(alloc, frame.held.as_slice())?,
            budget: frame.budget,
            profile: frame.profile,
            form: frame.form,
            steps: frame.steps,
            events: frame.events,
            output,
            ended: frame.ended,
        })
    }

    /// The thread with this frame and these 65,536 bytes of private memory, which stay where they are, with room for all that it may print.
    ///
    /// # Errors
    /// Out of memory.
    pub fn with_memory(alloc: Global, frame: &Frame, memory: Vec<u8>) -> Result<Thread, AllocError>
        requires { length memory.items ≡ memory_size }
        ensures { IfOk result (λ thread. thread ≡ framed_thread frame.now (pages_of memory.items)) }
    {
        Thread::on_machine(alloc, frame, Mach::with_memory(&frame.regs, memory))
    }

    /// The thread with this frame and these 16 pages of 4,096 bytes, with room for all that it may print.
    ///
    /// # Errors
    /// Out of memory.
    pub fn build(alloc: Global, frame: &Frame, pages: &[&[u8]]) -> Result<Thread, AllocError>
        requires { ArePages (map (λ page. page.now) pages.now) }
        ensures { IfOk result (λ thread. thread ≡ framed_thread frame.now (map (λ page. page.now) pages.now)) }
    {
        Thread::with_memory(alloc, frame, joined(alloc, pages)?)
    }
}
