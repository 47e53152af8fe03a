//! The bytes of a thread with the changes of its private memory.

ghost use Rattle.std.specs.Prelude.{◌≡◌, [], ℕ, length, true, false, IfOk};
ghost use Rattle.ir_thread_bytes.specs.Basis.{Basis};
ghost use Rattle.ir_thread_bytes.specs.Frozen.{frozen};
ghost use Rattle.ir_thread_bytes.specs.Thawed.{thawed};
ghost use Rattle.ir_mach.specs.Core.{memory_size};
ghost use Rattle.ir_state_store.specs.Rows.{packed_of, seen_in};
ghost use Rattle.ir_state_store.specs.Rows as rows;
ghost use Rattle.ir_thread.specs.State.{ThreadState};

use ir_thread::{Frame, Thread};
use ir_thread_bytes::{Basis, changes_at, changes_of, freeze, over, thaw};
use std::alloc::{AllocError, Global};
use std::marker::Model;

/// The bytes of a thread with the changes of its private memory, at which of them these begin, and whether the thread is over. If it is, the
/// changes come behind its bytes, and otherwise they are the end of them.
#[derive(Drop)]
pub struct Packed {
    bytes: Vec<u8>,
    at: usize,
    over: bool,
}

impl Model for Packed {
    ghost Value = { rows.Packed };

    ghost view = { λ p. record { bytes = p.bytes.items; at = p.at; over = p.over } };
}

impl Packed {
    /// A thread, frozen against a basis.
    ///
    /// # Errors
    /// Out of memory.
    pub fn of(alloc: Global, basis: &Basis<'_>, thread: &Thread) -> Result<Packed, AllocError>
        ensures { IfOk result (λ packed. packed ≡ packed_of basis.now thread.now) }
    {
        let mut bytes = freeze(alloc, basis, thread, &[])?;
        if over(thread) {
            let at = bytes.len();
            let changes = changes_of(alloc, basis.memory(), thread)?;
            bytes.extend_from_slice(changes.as_slice())?;
            return Ok(Packed {
                bytes,
                at,
                over: true,
            });
        }
        let Some(at) = changes_at(thread, &[]) else {
            return Err(AllocError);
        };
        Ok(Packed {
            bytes,
            at,
            over: false,
        })
    }

    /// The bytes of the thread, without its counts of steps and events.
    pub fn seen(&self) -> &[u8]
        ensures value { result.now ≡ seen_in self.now }
        ensures frozen { (basis : Basis) (s : ThreadState) → self.now ≡ packed_of basis s → result.now ≡ frozen basis s [] }
    {
        if self.over && self.at < self.bytes.len() {
            &self.bytes[..self.at]
        } else {
            self.bytes.as_slice()
        }
    }

    /// Whether the thread has ended and holds nothing.
    pub fn over(&self) -> bool
        ensures { result ≡ self.now.over }
    {
        self.over
    }

    /// Whether all of it is equal.
    pub fn same(&self, other: &Packed) -> bool
        ensures same { result ≡ true → self.now ≡ other.now }
        ensures other { result ≡ false → self.now ≡ other.now → ⊥ }
    {
        self.over == other.over
            && self.at == other.at
            && self.bytes.as_slice() == other.bytes.as_slice()
    }

    /// The thread of this frame, whose private memory was `start` at first.
    ///
    /// # Errors
    /// Out of memory.
    pub fn thread(&self, alloc: Global, start: &[u8], frame: &Frame) -> Result<Thread, AllocError>
        requires { length start.now ≡ memory_size }
        ensures { IfOk result (λ thread. thread ≡ thawed start.now frame.now self.now.at self.now.bytes) }
    {
        thaw(alloc, start, frame, self.at, self.bytes.as_slice())
    }
}
