//! Where threads stop.

ghost use Rattle.std.specs.Prelude.{◌≡◌, None, option_map, MatchOption};
ghost use Rattle.ir_gdb.specs.Stops.{stop_above, stop_below, after_range, end_above, end_below, watch_reason, break_reason, is_hit};

use crate::guarded::{Guarded, place_of};
use crate::point::Watched;
use ir_command::Hit;
use ir_packet::Reason;

/// A position, and why a thread stops there.
#[derive(Clone, Copy, Debug, PartialEq, Eq)]
pub struct Stopped {
    pub position: u64,
    pub reason: Reason,
}

/// The stop that gdb was told last.
#[derive(Clone, Copy, Debug, PartialEq, Eq)]
pub struct Told {
    /// Whether gdb interrupted it.
    pub interrupted: bool,
    pub thread: u32,
    pub reason: Reason,
}

/// The thread that moves, and whether the others may be stopped at their hits.
#[derive(Clone, Copy, Debug, PartialEq, Eq)]
pub struct Moving {
    pub thread: u32,
    pub among: bool,
}

/// Whether a thread stops there at a hit, and not because its run has no step more in this direction.
pub fn is_hit(reason: Reason) -> bool
    ensures { result ≡ is_hit reason }
{
    !matches!(
        reason,
        Reason::End | Reason::Begin | Reason::Ended(_) | Reason::Waits
    )
}

/// Why a thread stops at the watch of a number; without one at a point of the session.
pub fn watch_reason(watches: &[Watched], number: usize) -> Reason
    ensures { result ≡ watch_reason watches.now number }
{
    if number < watches.len() {
        return Reason::Watch(watches[number].address);
    }
    Reason::Step
}

/// Why a thread stops at the watch that a search finds; none if it finds none.
pub fn reason_of_hit(watches: &[Watched], hit: Option<Hit>) -> Option<Reason>
    ensures { result ≡ option_map (λ hit. watch_reason watches.now hit.number) hit }
{
    Some(watch_reason(watches, hit?.number as usize))
}

/// Why a thread stops at the breakpoint of a place; without one at a point of the session.
pub fn break_reason(breaks: &[Guarded], number: usize) -> Reason
    ensures { result ≡ break_reason breaks.now number }
{
    if number >= breaks.len() {
        return Reason::Step;
    }
    if breaks[number].point().hardware {
        Reason::HardwareBreak
    } else {
        Reason::SoftwareBreak
    }
}

/// Where a search upwards stops: a watch before the step that changes its word, or puts it.
pub fn stop_above(watches: &[Watched], breaks: &[Guarded], hit: Hit) -> Stopped
    ensures { result ≡ stop_above watches.now breaks.now hit }
{
    let number = hit.number as usize;
    let position = hit.position;
    if number < watches.len() {
        return Stopped {
            position: position.saturating_sub(1),
            reason: watch_reason(watches, number),
        };
    }
    let place = place_of(hit.number) as usize;
    let reason = break_reason(breaks, place.saturating_sub(watches.len()));
    Stopped { position, reason }
}

/// Where a search downwards stops: a watch after that step.
pub fn stop_below(watches: &[Watched], breaks: &[Guarded], hit: Hit) -> Stopped
    ensures { result ≡ stop_below watches.now breaks.now hit }
{
    let place = place_of(hit.number) as usize;
    let position = hit.position;
    if place < breaks.len() {
        let reason = break_reason(breaks, place);
        return Stopped { position, reason };
    }
    let reason = watch_reason(watches, (hit.number as usize).saturating_sub(breaks.len()));
    Stopped { position, reason }
}

/// Where a search upwards ends, by the hit that it finds.
pub fn end_above(watches: &[Watched], breaks: &[Guarded], last: u64, hit: Option<Hit>) -> Stopped
    ensures { result ≡ end_above watches.now breaks.now last hit }
{
    match hit {
        Some(hit) => stop_above(watches, breaks, hit),
        None => Stopped {
            position: last,
            reason: Reason::End,
        },
    }
}

/// Where a thread stops that would come to an end without a hit.
pub fn stop_or_end(
    watches: &[Watched],
    breaks: &[Guarded],
    end: Stopped,
    hit: Option<Hit>,
) -> Stopped
    ensures { MatchOption hit (result ≡ end) (λ h. result ≡ stop_above watches.now breaks.now h) }
{
    match hit {
        Some(hit) => stop_above(watches, breaks, hit),
        None => end,
    }
}

/// Where a thread stops that no point stops in a range of addresses, by the position at which it leaves the range.
pub fn after_range(last: u64, left: Option<u64>) -> Stopped
    ensures { result ≡ after_range last left }
{
    match left {
        Some(position) => Stopped {
            position,
            reason: Reason::Step,
        },
        None => Stopped {
            position: last,
            reason: Reason::End,
        },
    }
}

/// Where a search downwards ends.
pub fn end_below(watches: &[Watched], breaks: &[Guarded], hit: Option<Hit>) -> Stopped
    ensures { result ≡ end_below watches.now breaks.now hit }
{
    match hit {
        Some(hit) => stop_below(watches, breaks, hit),
        None => Stopped {
            position: 0,
            reason: Reason::Begin,
        },
    }
}
