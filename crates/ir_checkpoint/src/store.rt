//! Pages of kept cuts, the newest first: found, compared and put together again.

ghost use Rattle.std.specs.Prelude.{◌≡◌, ◌<◌, ◌≤◌, ◌+◌, ◌*◌, length, map, take, drop, slice_index_or, slice_get, IfOk, Some};
ghost use Rattle.std.specs.List.{All};
ghost use Rattle.ir_thread.specs.Frames.{framed_thread};
ghost use Rattle.ir_checkpoint.specs.Pages.{all_pages, same_bytes};
ghost use Rattle.ir_checkpoint.specs.Store.{Entry, blank, in_force, changed_page, changed, stored_threads, AreEntries, AreFull};

use crate::entry::Entry;
use crate::page::Page;
use ir_thread::{Frame, Thread};
use std::alloc::{AllocError, Global};

const PAGES_EACH: usize = 16;

// The bytes of the newest entry's page at a place.
pub fn page_at(entries: &[Entry], place: usize) -> &[u8]
    requires { All (λ e. place < length e.pages) entries.now }
    ensures { result.now ≡ (slice_index_or (in_force entries.now) place blank).bytes }
{
    for entry in entries {
        if let Some(page) = entry.page(place) {
            return page.bytes();
        }
    }
    &[]
}

// A copy of a page, unless the older one is the same.
pub fn if_changed(
    alloc: Global,
    number: u32,
    new: &[u8],
    old: &[u8],
) -> Result<Option<Page>, AllocError>
    ensures { IfOk result (λ page. page ≡ changed_page number new.now (record { source = 0; bytes = old.now })) }
{
    if new == old {
        return Ok(None);
    }
    Ok(Some(Page::of(alloc, number, new)?))
}

// The pages of threads that differ from those of the newest entry.
pub fn changed(
    alloc: Global,
    number: u32,
    threads: &[Thread],
    entries: &[Entry],
) -> Result<Vec<Option<Page>>, AllocError>
    requires { AreEntries (length threads.now) entries.now }
    ensures { IfOk result (λ pages. pages.items ≡ changed number (all_pages threads.now) (in_force entries.now)) }
{
    let count = PAGES_EACH * threads.len();
    let mut pages = Vec::with_capacity(alloc, count)?;
    for place in 0..count {
        let bytes = threads[place / PAGES_EACH].page((place % PAGES_EACH) as u8);
        pages.push(if_changed(alloc, number, bytes, page_at(entries, place))?)?;
    }
    Ok(pages)
}

// A thread of its frame and the newest entry's pages.
pub fn thread_at(
    alloc: Global,
    frame: &Frame,
    entries: &[Entry],
    t: usize,
) -> Result<Thread, AllocError>
    requires room { t < 4096 }
    requires fits { All (λ e. 16 * t + 16 ≤ length e.pages) entries.now }
    requires full { AreFull (in_force entries.now) }
    requires some { 0 < length entries.now }
    ensures { IfOk result (λ thread. thread ≡ framed_thread frame.now (map (λ p. p.bytes) (take 16 (drop (16 * t) (in_force entries.now))))) }
{
    let mut pages: [&[u8]; 16] = [&[]; 16];
    for i in 0..PAGES_EACH {
        pages[i] = page_at(entries, PAGES_EACH * t + i);
    }
    Thread::build(alloc, frame, &pages)
}

// The threads of these frames and the newest entry's pages.
pub fn threads_at(
    alloc: Global,
    frames: &[Frame],
    entries: &[Entry],
) -> Result<Vec<Thread>, AllocError>
    requires room { length frames.now ≤ 4096 }
    requires fits { AreEntries (length frames.now) entries.now }
    requires full { AreFull (in_force entries.now) }
    requires some { 0 < length entries.now }
    ensures { IfOk result (λ threads. threads.items ≡ stored_threads frames.now (in_force entries.now)) }
{
    let mut threads = Vec::with_capacity(alloc, frames.len())?;
    for t in 0..frames.len() {
        threads.push(thread_at(alloc, &frames[t], entries, t)?)?;
    }
    Ok(threads)
}
