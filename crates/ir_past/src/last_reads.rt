//! The last entries of a thread, and what they say of its next.

ghost use Rattle.std.specs.Prelude.{◌≡◌, ◌+◌, ◌<◌, ◌≤◌, ℕ, Some, None, length, slice_set, IfSome, IfNone};
ghost use Rattle.std.specs.List.{slice_get};
ghost use Rattle.ir_thread.specs.State.{most_events};
ghost use Rattle.ir_past.specs.Past.{IsStaleIn};
ghost use Rattle.ir_past.specs.Tables.{last_read};
ghost use Rattle.ir_past.specs.declared.last_reads.ReadEntry.{ReadEntry};
ghost use Rattle.ir_past.specs.Progress.{HoldsOpen, FitsSoFar, IsPairAt};

use ir_log::Event;

/// A read entry of an object.
#[derive(Clone, Copy, Debug, PartialEq, Eq)]
pub struct ReadEntry {
    /// Its place in its thread's log, from 0.
    pub event: u32,
    /// The version that was read.
    pub version: u32,
}

/// A stale read and write, but for where the write is.
#[derive(Clone, Copy, Debug, PartialEq, Eq)]
pub struct StalePair {
    /// The object.
    pub object: u8,
    /// The read entry, by its place in the thread's log.
    pub read: u32,
    /// The version that was read.
    pub version: u32,
    /// The version that the write entry found.
    pub written: u32,
}

// The read of an object at an earlier version than the one that is written.
fn stale_pair(object: u8, before: Option<ReadEntry>, written: u32) -> Option<StalePair>
    ensures found { IfSome result (λ p. (p.object ≡ object) × (p.written ≡ written) × (p.version < written) × (before ≡ Some (record { event = p.read; version = p.version }))) }
    ensures none { IfNone result ((e : ReadEntry) → before ≡ Some e → e.version < written → ⊥) }
{
    match before {
        Some(entry) if entry.version < written => Some(StalePair {
            object,
            read: entry.event,
            version: entry.version,
            written,
        }),
        _ => None,
    }
}

// Notes a read entry as the last entry of its object.
fn note_read(table: &mut [Option<ReadEntry>], object: u8, entry: ReadEntry)
    requires { object < length table.old }
    ensures { table.new ≡ slice_set table.old object (Some entry) }
{
    table[object as usize] = Some(entry);
}

// Takes the read entry that is the last entry of an object out of the table.
fn take_read(table: &mut [Option<ReadEntry>], object: u8) -> Option<ReadEntry>
    requires { object < length table.old }
    ensures value { result ≡ last_read table.old object }
    ensures rest { table.new ≡ slice_set table.old object None }
{
    let before = table[object as usize];
    table[object as usize] = None;
    before
}

/// Takes the next event of a log into the table of its last entries; the stale read, if the event is a write that rests on one.
pub fn take_event(
    table: &mut [Option<ReadEntry>],
    events: &[Event],
    place: usize,
) -> Option<StalePair>
    requires place { place < length events.now }
    requires few { length events.now ≤ most_events }
    requires holds { HoldsOpen events.now place table.old }
    requires fits { FitsSoFar events.now (length table.old) }
    ensures length { length table.new ≡ length table.old }
    ensures holds { HoldsOpen events.now (place + 1) table.new }
    ensures found { IfSome result (IsPairAt events.now place) }
    ensures none { IfNone result ((i o v w : ℕ) → IsStaleIn events.now i place o v w → ⊥) }
{
    match events[place] {
        Event::Answer(..) => None,
        Event::Try { .. } => None,
        Event::Read { object, version } => {
            let event = place as u32;
            note_read(table, object, ReadEntry { event, version });
            None
        }
        Event::Write {
            object,
            version,
            ..
        } => {
            let before = take_read(table, object);
            stale_pair(object, before, version)
        }
    }
}
