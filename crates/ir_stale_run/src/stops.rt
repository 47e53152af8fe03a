//! How far a thread goes before its rows are looked at again.

ghost use Rattle.std.specs.Prelude.{◌≡◌, ◌<◌, ◌≤◌};
ghost use Rattle.std.specs.List.Sorted.{IsNonDecreasingBy};
ghost use Rattle.ir_stale_run.specs.declared.span.Span.{Span};
ghost use Rattle.ir_stale_run.specs.Watch.{NoneDue, NoneEnds, IsBeforeStops};

use crate::span::Span;
use crate::watch::Watch;

// The next position at which an open row is looked at, if it comes before this one.
fn stop_of(span: &Span, k: u64, stop: u64) -> u64
    requires { k < span.now.end }
    ensures within { result ≤ stop }
    ensures end { result ≤ span.now.end }
    ensures write { k < span.now.write → result ≤ span.now.write }
    ensures past { k ≤ stop → k ≤ result }
    ensures ahead { result ≤ k → stop ≤ k }
{
    let stop = stop.min(span.end);
    if k < span.write {
        stop.min(span.write)
    } else {
        stop
    }
}

// The next position past k at which a row is looked at, or the thread's end.
pub fn next_stop(watch: &Watch, k: u64, end: u64) -> u64
    requires sorted { IsNonDecreasingBy (λ (s : Span). s.read) watch.now.spans.items }
    requires due { NoneDue k watch.now }
    requires ends { NoneEnds k watch.now.opened.items }
    requires within { k ≤ end }
    ensures stops { IsBeforeStops k result watch.now }
    ensures within { result ≤ end }
    ensures ahead { k ≤ result }
    ensures last { result ≤ k → end ≤ k }
{
    let mut stop = end;
    if watch.next < watch.spans.len() {
        stop = stop.min(watch.spans[watch.next].read);
    }
    for i in 0..watch.opened.len() {
        stop = stop_of(&watch.opened[i].span, k, stop);
    }
    stop
}
