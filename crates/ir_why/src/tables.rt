//! What events need, by tables of a trace.

ghost use Rattle.std.specs.Prelude.{◌≡◌, ◌++◌, ◌<◌, length, OnOk, IfOk};
ghost use Rattle.ir_trace.specs.Recorded.{recorded_thread};
ghost use Rattle.ir_why.specs.Needed.{AreNeeds};
ghost use Rattle.ir_past.specs.Answers.{AreCoherent};
ghost use Rattle.ir_why.specs.Tables.{HasTables, AreThere, others, listed, maker_at, needs_in};

use ir_log::Event;
use ir_past::{Makers, Place, Reads, event_of, makers_of, reads_of};
use ir_trace::Trace;
use std::alloc::{AllocError, Global};

/// The write entries and the read entries of a trace.
#[derive(Drop)]
pub struct Tables {
    makers: Makers,
    reads: Reads,
}

/// The tables of a trace. Time and memory are linear in the events.
///
/// # Errors
/// Out of memory.
pub fn tables_of(alloc: Global, trace: &Trace) -> Result<Tables, AllocError>
    ensures { IfOk result (HasTables trace.now) }
{
    let makers = makers_of(alloc, trace)?;
    let reads = reads_of(alloc, trace)?;
    Ok(Tables { makers, reads })
}

// Adds those of these events that are of other threads.
fn push_others(needs: &mut Vec<Place>, places: &[Place], thread: u8) -> Result<(), AllocError>
    ensures { OnOk result (needs.new.items ≡ needs.old.items ++ others thread places.now) }
{
    for place in places {
        if place.thread != thread {
            needs.push(*place)?;
        }
    }
    Ok(())
}

impl Tables {
    // What made a version of an object.
    fn maker(&self, object: u8, version: u32) -> Option<Place>
        ensures { result ≡ maker_at self.now object version }
    {
        match version.checked_sub(1) {
            None => None,
            Some(before) => self.makers.get(object, before),
        }
    }

    // Adds what made a version of an object, if it is an event of another thread.
    fn push_maker(
        &self,
        needs: &mut Vec<Place>,
        object: u8,
        version: u32,
        thread: u8,
    ) -> Result<(), AllocError>
        ensures { OnOk result (needs.new.items ≡ needs.old.items ++ others thread (listed (maker_at self.now object version))) }
    {
        if let Some(maker) = self.maker(object, version) {
            if maker.thread != thread {
                needs.push(maker)?;
            }
        }
        Ok(())
    }

    // What an event of a thread needs of others.
    fn needs_in(&self, alloc: Global, thread: u8, event: Event) -> Result<Vec<Place>, AllocError>
        ensures { IfOk result (λ needs. needs.items ≡ needs_in self.now thread event) }
    {
        let mut needs = Vec::new(alloc);
        match event {
            Event::Answer(..) | Event::Try { .. } => {}
            Event::Read { object, version } => {
                self.push_maker(&mut needs, object, version, thread)?;
            }
            Event::Write {
                object,
                version,
                ..
            } => {
                self.push_maker(&mut needs, object, version, thread)?;
                push_others(&mut needs, self.reads.get(object, version), thread)?;
            }
        }
        Ok(needs)
    }

    /// What an event of a coherent trace needs of other threads: what made the version that it enters, and then the read entries that it
    /// writes over, by rising thread and event. Time is linear in these.
    ///
    /// # Errors
    /// Out of memory.
    pub fn needs_of(
        &self,
        alloc: Global,
        trace: &Trace,
        here: Place,
    ) -> Result<Vec<Place>, AllocError>
        requires coherent { AreCoherent trace.now }
        requires tables { HasTables trace.now self.now }
        requires thread { here.thread < length trace.now.threads }
        requires event { here.event < length (recorded_thread trace.now here.thread).events }
        ensures needs { IfOk result (λ needs. AreNeeds trace.now here.thread here.event needs.items) }
        ensures there { IfOk result (λ needs. AreThere trace.now needs.items) }
    {
        trace.threads();
        let needs = self.needs_in(alloc, here.thread, event_of(trace, here))?;
        Ok(needs)
    }
}
