//! A thread as bytes.

ghost use Rattle.std.specs.Prelude.{◌≡◌, ◌+◌, ◌≤◌, ◌^◌, ◌++◌, map, flat_map, length, is_none, IfOk, OnOk};
ghost use Rattle.ir_liveness.specs.Table.{kept_registers};
ghost use Rattle.ir_mach.specs.Core.{memory_size};
ghost use Rattle.ir_thread.specs.State.{highest};
ghost use Rattle.ir_thread_bytes.specs.Frozen.{word, held_byte, end_bytes, change, page_changes, is_over, fixed_bytes, going_bytes, frozen};

use crate::basis::Basis;
use crate::pages::page_in;
use ir_liveness::Live;
use ir_mach::{MEMORY_PAGES, Mach, PAGE_SIZE, REGISTERS};
use ir_runs::Access;
use ir_thread::{End, Thread};
use std::alloc::{AllocError, Global};

const GOES_ON: u8 = 0;

const OVER: u8 = 1;

fn put_word(out: &mut Vec<u8>, value: u32) -> Result<(), AllocError>
    ensures { OnOk result (out.new.items ≡ out.old.items ++ word value) }
{
    out.extend_from_slice(&value.to_le_bytes())
}

fn put_end(out: &mut Vec<u8>, ended: Option<End>) -> Result<(), AllocError>
    ensures { OnOk result (out.new.items ≡ out.old.items ++ end_bytes ended) }
{
    match ended {
        None => {
            out.push(0)?;
            put_word(out, 0)
        }
        Some(end) => {
            out.push(end.number())?;
            put_word(out, end.code())
        }
    }
}

// The words of pc and x0 to x31, of which those that aren't live are 0.
fn put_registers(out: &mut Vec<u8>, live: &Live, mach: &Mach) -> Result<(), AllocError>
    ensures { OnOk result (out.new.items ≡ out.old.items ++ word mach.now.pc ++ flat_map word (kept_registers live.now mach.now)) }
{
    put_word(out, mach.pc())?;
    for n in 0..REGISTERS {
        put_word(out, live.kept(mach, n))?;
    }
    Ok(())
}

fn byte_of(held: Option<Access>) -> u8
    ensures { result ≡ held_byte held }
{
    match held {
        None => 0,
        Some(Access::Reading) => 1,
        Some(Access::Writing) => 2,
    }
}

fn put_held(out: &mut Vec<u8>, held: &[Option<Access>]) -> Result<(), AllocError>
    ensures { OnOk result (out.new.items ≡ out.old.items ++ map held_byte held.now) }
{
    for entry in held {
        out.push(byte_of(*entry))?;
    }
    Ok(())
}

fn put_change(out: &mut Vec<u8>, place: u16, old: u8, new: u8) -> Result<(), AllocError>
    ensures { OnOk result (out.new.items ≡ out.old.items ++ change place old new) }
{
    if new == old {
        return Ok(());
    }
    out.extend_from_slice(&place.to_le_bytes())?;
    out.push(new)?;
    Ok(())
}

// What a page has that it hadn't.
fn put_page(out: &mut Vec<u8>, first: u16, old: &[u8], new: &[u8]) -> Result<(), AllocError>
    requires size { length new.now ≡ length old.now }
    requires room { first + length old.now ≤ 2 ^ 16 }
    ensures { OnOk result (out.new.items ≡ out.old.items ++ page_changes first old.now new.now) }
{
    if old == new {
        return Ok(());
    }
    for i in 0..old.len() {
        put_change(out, first + i as u16, old[i], new[i])?;
    }
    Ok(())
}

// What private memory has that it hadn't.
fn put_changes(out: &mut Vec<u8>, start: &[u8], thread: &Thread) -> Result<(), AllocError>
    requires { length start.now ≡ memory_size }
    ensures { OnOk result (out.new.items ≡ out.old.items ++ page_changes 0 start.now thread.now.core.memory) }
{
    for i in 0..MEMORY_PAGES {
        let first = PAGE_SIZE * i;
        put_page(out, first as u16, page_in(start, i), thread.page(i as u8))?;
    }
    Ok(())
}

/// What a thread's private memory has that it hadn't at first, when it was `start`.
///
/// # Errors
/// Out of memory.
pub fn changes_of(alloc: Global, start: &[u8], thread: &Thread) -> Result<Vec<u8>, AllocError>
    requires { length start.now ≡ memory_size }
    ensures { IfOk result (λ bytes. bytes.items ≡ page_changes 0 start.now thread.now.core.memory) }
{
    let mut out = Vec::new(alloc);
    put_changes(&mut out, start, thread)?;
    Ok(out)
}

fn holds_none(held: &[Option<Access>]) -> bool
    ensures { result ≡ is_none (highest held.now) }
{
    for entry in held {
        if entry.is_some() {
            return false;
        }
    }
    true
}

/// Whether a thread has ended and holds nothing.
pub fn over(thread: &Thread) -> bool
    ensures { result ≡ is_over thread.now }
{
    thread.ended().is_some() && holds_none(thread.held())
}

fn put_fixed(
    out: &mut Vec<u8>,
    basis: &Basis<'_>,
    thread: &Thread,
    mark: &[u8],
) -> Result<(), AllocError>
    ensures { OnOk result (out.new.items ≡ out.old.items ++ fixed_bytes basis.now thread.now mark.now) }
{
    put_registers(out, basis.live(), thread.mach())?;
    put_held(out, thread.held())?;
    out.extend_from_slice(mark)
}

fn put_going(
    out: &mut Vec<u8>,
    basis: &Basis<'_>,
    thread: &Thread,
    mark: &[u8],
) -> Result<(), AllocError>
    ensures { OnOk result (out.new.items ≡ out.old.items ++ going_bytes basis.now thread.now mark.now) }
{
    put_fixed(out, basis, thread, mark)?;
    put_word(out, thread.output().len() as u32)?;
    out.extend_from_slice(thread.output())?;
    put_changes(out, basis.memory(), thread)
}

/// The bytes of a thread, beside a mark that says where its source is. Of a thread that goes on they have the live registers, 0 for the others, and
/// what its private memory has that it hadn't at first.
///
/// # Errors
/// Out of memory.
pub fn freeze(
    alloc: Global,
    basis: &Basis<'_>,
    thread: &Thread,
    mark: &[u8],
) -> Result<Vec<u8>, AllocError>
    ensures { IfOk result (λ bytes. bytes.items ≡ frozen basis.now thread.now mark.now) }
{
    let mut out = Vec::new(alloc);
    put_end(&mut out, thread.ended())?;
    if over(thread) {
        out.push(OVER)?;
        out.extend_from_slice(thread.output())?;
    } else {
        out.push(GOES_ON)?;
        put_going(&mut out, basis, thread, mark)?;
    }
    Ok(out)
}
