//! The versions of an object.

ghost use Rattle.std.specs.Prelude.{◌≡◌, suc, length, IfOk};
ghost use Rattle.ir_past.specs.Answers.{AreCoherent};
ghost use Rattle.ir_coherence.specs.Counting.{AreSettled, CountsAll};
ghost use Rattle.ir_trace.specs.Recorded.{trace_of};
ghost use Rattle.ir_trace.specs.Bounds.{IsRecorded};
ghost use Rattle.ir_who.specs.Versions.{readers_at, AreVersions};

use crate::version::Version;
use ir_coherence::{EntryCounts, count_entries};
use ir_past::makers_of;
use ir_trace::Trace;
use std::alloc::{AllocError, Global};

// How many read entries of an object there are at the version after this one.
fn next_readers(trace: &Trace, counts: &EntryCounts, object: u8, version: u32) -> usize
    requires settled { AreSettled counts.now }
    requires counts { CountsAll (length trace.now.threads) (trace_of trace.now) counts.now }
    requires recorded { IsRecorded trace.now }
    ensures { result ≡ readers_at trace.now object (suc version) }
{
    match version.checked_add(1) {
        Some(next) => counts.reads(object, next),
        None => 0,
    }
}

/// The versions of an object of a coherent trace, the first one first. Time and memory are linear in the events.
///
/// # Errors
/// Out of memory.
pub fn versions_of(alloc: Global, trace: &Trace, object: u8) -> Result<Vec<Version>, AllocError>
    requires { AreCoherent trace.now }
    ensures { IfOk result (λ rows. AreVersions trace.now object rows.items) }
{
    let makers = makers_of(alloc, trace)?;
    let counts = count_entries(alloc, trace)?;
    let mut rows = Vec::new(alloc);
    rows.push(Version {
        made_by: None,
        readers: counts.reads(object, 0),
    })?;
    for version in 0..=u32::MAX {
        let Some(place) = makers.get(object, version) else {
            return Ok(rows);
        };
        rows.push(Version {
            made_by: Some(place),
            readers: next_readers(trace, &counts, object, version),
        })?;
    }
    Ok(rows)
}
