//! How far a thread goes before its holds are looked at again.

ghost use Rattle.std.specs.Prelude.{◌≡◌, ◌≤◌, true, false};
ghost use Rattle.std.specs.List.Sorted.{IsNonDecreasingBy};
ghost use Rattle.ir_who_word.specs.declared.hold.Hold.{Hold};
ghost use Rattle.ir_who_word.specs.Track.{NoTrackDue, IsLooked, IsBeforeStop};

use crate::track::Track;

// Whether the steps from position k on are looked at, since one of them may put the word in a hold.
pub fn is_looked(track: &Track, k: u64) -> bool
    ensures yes { result ≡ true → IsLooked k track.now }
    ensures no { result ≡ false → IsLooked k track.now → ⊥ }
{
    track.next < track.holds.len() && track.from <= k
}

// The next position past k at which a hold is looked at, or the thread's end.
pub fn next_stop(track: &Track, k: u64, end: u64) -> u64
    requires sorted { IsNonDecreasingBy (λ (h : Hold). h.leave) track.now.holds.items }
    requires due { NoTrackDue k track.now }
    requires within { k ≤ end }
    ensures stop { IsBeforeStop k result track.now }
    ensures within { result ≤ end }
    ensures ahead { k ≤ result }
    ensures last { result ≤ k → end ≤ k }
{
    match track.holds.get(track.next) {
        Some(hold) if k < track.from => track.from.min(hold.leave).min(end),
        Some(hold) => hold.leave.min(end),
        None => end,
    }
}
