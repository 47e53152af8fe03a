//! A thread from its bytes and its frame.

ghost use Rattle.std.specs.Prelude.{◌≡◌, drop, length, vec_len, IfOk, IfSome};
ghost use Rattle.ir_mach.specs.Core.{memory_size};
ghost use Rattle.ir_thread_bytes.specs.Thawed.{before_changes, changed_pages, thawed};

use ir_thread::{Frame, Thread};
use std::alloc::{AllocError, Global};

// The bytes of a change.
const CHANGE: usize = 3;

// All that comes before the changes but what is held, the mark and the output.
const BEFORE: usize = 142;

// Writes each change to the memory.
fn change(memory: &mut Vec<u8>, changes: &[u8])
    requires { vec_len memory.old ≡ memory_size }
    ensures value { memory.new.items ≡ changed_pages memory.old.items changes.now }
    ensures size { vec_len memory.new ≡ memory_size }
{
    for k in 0..changes.len() / CHANGE {
        let low = changes[CHANGE * k];
        let high = changes[CHANGE * k + 1];
        memory[u16::from_le_bytes([low, high]) as usize] = changes[CHANGE * k + 2];
    }
}

// The bytes from `at` on.
fn tail(bytes: &[u8], at: usize) -> &[u8]
    ensures { result.now ≡ drop at bytes.now }
{
    if at > bytes.len() {
        return &[];
    }
    &bytes[at..]
}

/// Where the changes of private memory begin in the bytes of a thread that isn't over.
pub fn changes_at(thread: &Thread, mark: &[u8]) -> Option<usize>
    ensures { IfSome result (λ at. at ≡ before_changes thread.now (length mark.now)) }
{
    BEFORE
        .checked_add(mark.len())?
        .checked_add(thread.held().len() + thread.output().len())
}

/// The thread of this frame, with the changes that these bytes of a frozen thread have from byte `at` on; its private memory was `start`
/// at first.
///
/// # Errors
/// Out of memory.
pub fn thaw(
    alloc: Global,
    start: &[u8],
    frame: &Frame,
    at: usize,
    bytes: &[u8],
) -> Result<Thread, AllocError>
    requires { length start.now ≡ memory_size }
    ensures { IfOk result (λ thread. thread ≡ thawed start.now frame.now at bytes.now) }
{
    let mut memory = Vec::from_slice(alloc, start)?;
    change(&mut memory, tail(bytes, at));
    Thread::with_memory(alloc, frame, memory)
}
