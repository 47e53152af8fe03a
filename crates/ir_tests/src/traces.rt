//! Traces in rows, and their bytes.

use ir_trace::{Trace, read_trace, write_trace};
use std::alloc::{AllocError, Global};
use std::test::Fail;

/// An event: an answer's value; an entry's object, its version, and how many had read it.
#[derive(Clone, Copy)]
pub enum EventRow {
    Clock(u32),
    Random(u32),
    Input(u32),
    Read(u8, u32),
    Write(u8, u32, u32),
}

/// A thread ran this number of steps to the end of this number and code, and logged this.
#[derive(Clone, Copy)]
pub struct Ran(pub u64, pub u8, pub u32, pub &'static [EventRow]);

/// A trace.
#[derive(Clone, Copy)]
pub struct TraceRow {
    pub objects: u8,
    pub budget: u64,
    pub threads: &'static [Ran],
}

/// Of `DOUBLED`.
pub const ENDED_BY_144: TraceRow = TraceRow {
    objects: 0,
    budget: 1000,
    threads: &[Ran(6, 1, 144, &[])],
};

/// Of `TWO_COUNTERS`: thread 1 is inside first.
pub const SECOND_FIRST: TraceRow = TraceRow {
    objects: 1,
    budget: 1000,
    threads: &[
        Ran(18, 1, 0, &[EventRow::Write(0, 1, 0)]),
        Ran(18, 1, 0, &[EventRow::Write(0, 0, 0)]),
    ],
};

/// Of `TWO_COUNTERS`: thread 0 is inside first.
pub const FIRST_FIRST: TraceRow = TraceRow {
    objects: 1,
    budget: 1000,
    threads: &[
        Ran(18, 1, 0, &[EventRow::Write(0, 0, 0)]),
        Ran(18, 1, 0, &[EventRow::Write(0, 1, 0)]),
    ],
};

/// Of `READ_THEN_WRITE`.
pub const READ_AND_WRITTEN: TraceRow = TraceRow {
    objects: 1,
    budget: 1000,
    threads: &[Ran(11, 1, 0, &[EventRow::Read(0, 0), EventRow::Write(0, 0, 1)])],
};

/// Of `TWO_READERS`: both readers of version 0 may be inside at the same time.
pub const BOTH_READ: TraceRow = TraceRow {
    objects: 1,
    budget: 1000,
    threads: &[
        Ran(7, 1, 0, &[EventRow::Read(0, 0)]),
        Ran(7, 1, 0, &[EventRow::Read(0, 0)]),
    ],
};

pub const TWICE_STORED: TraceRow = TraceRow {
    objects: 0,
    budget: 1000,
    threads: &[Ran(5, 1, 0x100000, &[])],
};

fn put_answer(bytes: &mut Vec<u8>, tag: u8, value: u32) -> Result<(), AllocError> {
    bytes.push(tag)?;
    bytes.extend_from_slice(&value.to_le_bytes())
}

fn put_event(bytes: &mut Vec<u8>, event: EventRow) -> Result<(), AllocError> {
    match event {
        EventRow::Clock(value) => put_answer(bytes, 1, value),
        EventRow::Random(value) => put_answer(bytes, 2, value),
        EventRow::Input(value) => put_answer(bytes, 3, value),
        EventRow::Read(object, version) => {
            bytes.extend_from_slice(&[4, object])?;
            bytes.extend_from_slice(&version.to_le_bytes())
        }
        EventRow::Write(object, version, readers) => {
            bytes.extend_from_slice(&[5, object])?;
            bytes.extend_from_slice(&version.to_le_bytes())?;
            bytes.extend_from_slice(&readers.to_le_bytes())
        }
    }
}

fn put_thread(bytes: &mut Vec<u8>, thread: Ran) -> Result<(), AllocError> {
    let Ran(steps, end, code, events) = thread;
    bytes.extend_from_slice(&steps.to_le_bytes())?;
    bytes.push(end)?;
    bytes.extend_from_slice(&code.to_le_bytes())?;
    bytes.extend_from_slice(&(events.len().min(255) as u32).to_le_bytes())?;
    for event in events {
        put_event(bytes, *event)?;
    }
    Ok(())
}

/// The bytes of a trace.
pub fn trace_bytes(alloc: Global, trace: TraceRow) -> Result<Vec<u8>, AllocError> {
    let mut bytes = Vec::from_slice(alloc, b"IRT1")?;
    let threads = trace.threads.len().min(255) as u8;
    bytes.extend_from_slice(&[threads, trace.objects, 0, 0])?;
    bytes.extend_from_slice(&trace.budget.to_le_bytes())?;
    for thread in trace.threads {
        put_thread(&mut bytes, *thread)?;
    }
    Ok(bytes)
}

/// The trace itself.
pub fn trace_of(alloc: Global, trace: TraceRow) -> Result<Trace, Fail> {
    Ok(read_trace(alloc, trace_bytes(alloc, trace)?.as_slice())?)
}

/// Whether this is the trace.
pub fn is_trace(alloc: Global, trace: &Trace, wanted: TraceRow) -> Result<bool, Fail> {
    let bytes = write_trace(alloc, trace)?;
    Ok(bytes.as_slice() == trace_bytes(alloc, wanted)?.as_slice())
}
