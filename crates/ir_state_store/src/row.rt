//! A thread without the private memory that is as at the start, beside what answers it.

ghost use Rattle.std.specs.Prelude.{◌≡◌, length, true, false, IfOk};
ghost use Rattle.ir_thread_bytes.specs.Frozen.{is_over};
ghost use Rattle.ir_mach.specs.Core.{memory_size};
ghost use Rattle.ir_state_store.specs.Rows.{seen_in};
ghost use Rattle.ir_state_store.specs.Rows as rows;
ghost use Rattle.ir_thread.specs.Frames.{frame_of};

use crate::packed::Packed;
use ir_thread::{Frame, Thread};
use ir_thread_bytes::over;
use ir_world::Sources;
use std::alloc::{AllocError, Global};
use std::marker::Model;

/// The frame of a thread, its bytes with the changes of its private memory, what answers it, and the number of a thread that looks the same.
#[derive(Drop)]
pub struct Row<'a> {
    frame: Frame,
    packed: Packed,
    source: Sources<'a>,
    look: usize,
}

impl<'a> Model for Row<'a> {
    ghost Value = { rows.StoreRow };

    ghost view = { λ r. record { frame = r.frame; packed = r.packed; source = r.source; look = r.look } };
}

impl<'a> Row<'a> {
    /// The row of a thread with these bytes, beside what answers it, and which looks like the one of this number.
    ///
    /// # Errors
    /// Out of memory.
    pub fn of(
        thread: &Thread,
        packed: Packed,
        source: &Sources<'a>,
        look: usize,
    ) -> Result<Row<'a>, AllocError>
        ensures frame { IfOk result (λ row. row.frame ≡ frame_of thread.now) }
        ensures packed { IfOk result (λ row. row.packed ≡ packed) }
        ensures source { IfOk result (λ row. row.source ≡ source.now) }
        ensures look { IfOk result (λ row. row.look ≡ look) }
    {
        let source = source.copy()?;
        let frame = thread.frame()?;
        Ok(Row {
            frame,
            packed,
            source,
            look,
        })
    }

    /// The thread.
    ///
    /// # Errors
    /// Out of memory.
    pub fn thread(&self, alloc: Global, start: &[u8]) -> Result<Thread, AllocError>
        requires { length start.now ≡ memory_size }
        ensures { IfOk result (λ thread. thread ≡ rows.thread_in start.now self.now) }
    {
        self.packed.thread(alloc, start, &self.frame)
    }

    /// Whether the row is a thread's with these bytes, and what answers that is this.
    pub fn has(&self, packed: &Packed, thread: &Thread, source: &Sources<'_>) -> bool
        ensures frame { result ≡ true → frame_of thread.now ≡ self.now.frame }
        ensures packed { result ≡ true → self.now.packed ≡ packed.now }
        ensures source { result ≡ true → self.now.source ≡ source.now }
        ensures other { result ≡ false → frame_of thread.now ≡ self.now.frame → self.now.packed ≡ packed.now → self.now.source ≡ source.now → ⊥ }
    {
        self.packed.same(packed) && thread.has_frame(&self.frame) && self.source.same(source)
    }

    /// Whether the thread has these bytes, which are another thread's, and what answers that one, unless that one is over.
    pub fn looks_like(&self, bytes: &[u8], thread: &Thread, source: &Sources<'_>) -> bool
        ensures bytes { result ≡ true → seen_in self.now.packed ≡ bytes.now }
        ensures source { result ≡ true → is_over thread.now ≡ false → self.now.source ≡ source.now }
        ensures other { result ≡ false → seen_in self.now.packed ≡ bytes.now → (is_over thread.now ≡ false → self.now.source ≡ source.now) → ⊥ }
    {
        (over(thread) || self.source.same(source)) && self.packed.seen() == bytes
    }

    /// What answers the thread.
    pub fn source(&self) -> &Sources<'a>
        ensures { result.now ≡ self.now.source }
    {
        &self.source
    }

    /// How many calls for the time were answered.
    pub fn ticks(&self) -> u64
        ensures { result ≡ self.now.source.ticks }
    {
        let [ticks, _, _] = self.source.mark();
        ticks
    }

    /// Whether the thread has ended and holds nothing.
    pub fn over(&self) -> bool
        ensures { result ≡ self.now.packed.over }
    {
        self.packed.over()
    }

    /// The number of a thread that looks the same.
    pub fn look(&self) -> usize
        ensures { result ≡ self.now.look }
    {
        self.look
    }
}
