//! What is handed back once all threads are done.

ghost use Rattle.std.specs.Prelude.{◌≡◌, ◌≢◌, ◌≤◌, ◌<◌, ℕ, None, length, map, vec_len, IfOk};
ghost use Rattle.ir_flat.specs.Flat.{thread_of};
ghost use Rattle.ir_image.specs.Guest.{limits_of};
ghost use Rattle.ir_thread.specs.State.{largest, most_budget};
ghost use Rattle.ir_record.specs.Gathered.{AreThreadTraces};
ghost use Rattle.ir_record.specs.Progress.{HasLogs};

use crate::in_order::logged_guest::LoggedGuest;
use crate::outputs::{Output, Outputs};
use crate::thread_trace::thread_trace;
use ir_thread::{Profile, Thread};
use ir_trace::Trace;
use std::alloc::{AllocError, Global};

// What each thread printed, beside its world.
pub fn outputs<W: Drop>(
    alloc: Global,
    threads: &[Thread],
    worlds: Vec<W>,
) -> Result<Outputs<W>, AllocError>
    requires { vec_len worlds ≡ length threads.now }
    ensures bytes { IfOk result (λ o. map (λ x. x.bytes.items) o.each.items ≡ map (λ x. x.output) threads.now) }
    ensures worlds { IfOk result (λ o. map (λ x. x.world) o.each.items ≡ worlds.items) }
{
    let mut each = Vec::with_capacity(alloc, threads.len())?;
    for world in worlds {
        let bytes = Vec::from_slice(alloc, threads[each.len()].output())?;
        each.push(Output { bytes, world })?;
    }
    Ok(Outputs { each })
}

impl LoggedGuest<'_> {
    // The trace, once all threads have ended.
    pub fn into_trace(
        self,
        alloc: Global,
        budget: u64,
        profile: Profile,
    ) -> Result<Trace, AllocError>
        requires has_logs { HasLogs self.flat self.logs.items }
        requires some { 1 ≤ length self.flat.threads }
        requires few_threads { length self.flat.threads ≤ (limits_of (largest profile)).threads }
        requires few_objects { length self.flat.objects ≤ (limits_of (largest profile)).objects }
        requires budget { budget ≤ most_budget }
        requires profile { (t : ℕ) → t < length self.flat.threads → (thread_of self.flat t).profile ≡ profile }
        requires ended { (t : ℕ) → t < length self.flat.threads → (thread_of self.flat t).ended ≢ None }
        ensures objects { IfOk result (λ r. r.objects ≡ length self.entry.flat.objects) }
        ensures limit { IfOk result (λ r. r.budget ≡ budget) }
        ensures profile { IfOk result (λ r. r.profile ≡ profile) }
        ensures threads { IfOk result (λ r. AreThreadTraces self.entry.flat self.entry.logs.items r.threads) }
    {
        let LoggedGuest { flat, logs } = self;
        let mut threads = Vec::with_capacity(alloc, logs.len())?;
        for log in logs {
            let thread = &flat.threads()[threads.len()];
            threads.push(thread_trace(thread, log))?;
        }
        Ok(Trace::new(flat.objects().len() as u8, budget, threads, profile))
    }
}
