//! A guest before its first step.

ghost use Rattle.std.specs.Prelude.{◌≡◌, ◌≤◌, [], length, replicate, IfOk, OnOk};
ghost use Rattle.ir_image.specs.Bounds.{IsGuest};
ghost use Rattle.ir_flat.specs.Flat.{start_flat};
ghost use Rattle.ir_thread.specs.State.{IsAllowed, most_budget, most_events};

use crate::in_order::logged_guest::LoggedGuest;
use ir_flat::Flat;
use ir_image::Image;
use ir_log::Log;
use ir_thread::{MOST_EVENTS, Profile};
use std::alloc::{AllocError, Global};

// `count` logs without events, each with room for all that a thread may log.
fn logs(alloc: Global, count: usize) -> Result<Vec<Log>, AllocError>
    ensures { IfOk result (λ logs. logs.items ≡ replicate count (record { events = []; room = most_events })) }
{
    let mut logs = Vec::with_capacity(alloc, count)?;
    for number in 0..count {
        logs.push(Log::new(alloc, MOST_EVENTS as usize)?)?;
    }
    Ok(logs)
}

impl<'a> LoggedGuest<'a> {
    // The guest of the image before its first step, with room for all that its threads may log.
    pub fn start(
        alloc: Global,
        image: &'a Image,
        budget: u64,
        profile: Profile,
    ) -> Result<LoggedGuest<'a>, AllocError>
        requires budget { budget ≤ most_budget }
        requires allowed { IsAllowed profile image.now }
        ensures guest { OnOk result (IsGuest image.now) }
        ensures flat { IfOk result (λ guest. guest.flat ≡ start_flat image.now budget profile) }
        ensures logs { IfOk result (λ guest. guest.logs.items ≡ replicate (length image.now.entries) (record { events = []; room = most_events })) }
    {
        let flat = Flat::start(alloc, image, budget, profile)?;
        let logs = logs(alloc, image.entries().len())?;
        Ok(LoggedGuest { flat, logs })
    }
}
