//! A thread that goes on by itself, and its holds on the way.

ghost use Rattle.std.specs.Prelude.{◌≡◌, ◌⊎◌, ◌<◌, ◌≤◌, ℕ, true, false, length, slice_get, Some};
ghost use Rattle.std.specs.List.{slice_index_or};
ghost use Rattle.ir_weave.specs.Standing.{flat_in, positions};
ghost use Rattle.ir_weave.specs.Stepping.{RestsAtTarget};
ghost use Rattle.ir_events.specs.Walk.{IsOnWalk, IsFurther};
ghost use Rattle.ir_who.specs.declared.version.Version.{Version};
ghost use Rattle.ir_who_word.specs.Words.{IsWorded, unread};
ghost use Rattle.ir_who_word.specs.Track.{IsTrackGuide, IsWordTrack, IsTrackPending, AddsWords};

use crate::guide::Guide;
use crate::noting::{note_due, note_put};
use crate::stops::{is_looked, next_stop};
use crate::track::Track;
use crate::worded::Worded;
use ir_event_walk::{take_steps, thread_of};
use ir_replay::State;

// Takes thread t on by itself; where its steps are looked at, by at most one call. Whether it took a step.
fn stretch(
    guide: Guide<'_, '_>,
    state: State,
    t: usize,
    track: &mut Track,
    words: &mut [Worded],
) -> (State, bool)
    requires guide { IsTrackGuide guide.route.fitted.now guide.rows.now guide.word guide.route.ends.now guide.route.code.now }
    requires way { IsOnWalk guide.route.fitted.now guide.route.ends.now state }
    requires thread { t < length guide.route.fitted.now.guest.entries }
    requires track { IsWordTrack guide.route.fitted.now guide.rows.now guide.word t (positions (flat_in guide.route.fitted.now state) t) track.old }
    requires size { length words.old ≡ length guide.rows.now }
    ensures way { IsOnWalk guide.entry.route.fitted.now guide.entry.route.ends.now result.0 }
    ensures further { IsFurther guide.entry.route.fitted.now t state result.0 }
    ensures track { IsWordTrack guide.entry.route.fitted.now guide.entry.rows.now guide.entry.word t (positions (flat_in guide.entry.route.fitted.now result.0) t) track.new }
    ensures adds { AddsWords guide.entry.route.fitted.now guide.entry.rows.now guide.entry.word words.old words.new }
    ensures found { (r : ℕ) (x : Version) → slice_get guide.entry.rows.now r ≡ Some x → IsTrackPending track.old r
        → IsTrackPending track.new r ⊎ IsWorded guide.entry.route.fitted.now guide.entry.word x (slice_index_or words.new r unread) }
    ensures moved { result.1 ≡ true → positions (flat_in guide.entry.route.fitted.now state) t < positions (flat_in guide.entry.route.fitted.now result.0) t }
    ensures rests { result.1 ≡ false → RestsAtTarget guide.entry.route.fitted.now guide.entry.route.ends.now (flat_in guide.entry.route.fitted.now result.0) t }
{
    note_due(guide, &state, t, track, words);
    let from = thread_of(&state, t).steps();
    let most = next_stop(track, from, guide.route.ends.position(t)) - from;
    let keeps = is_looked(track, from);
    let (state, taken) = take_steps(guide.route, state, t, most, keeps);
    note_put(guide.word, track, from, taken.call);
    (state, taken.steps > 0)
}

// Takes thread t on by itself as far as it can.
pub fn visit_thread(
    guide: Guide<'_, '_>,
    state: State,
    t: usize,
    track: &mut Track,
    words: &mut [Worded],
) -> State
    requires guide { IsTrackGuide guide.route.fitted.now guide.rows.now guide.word guide.route.ends.now guide.route.code.now }
    requires way { IsOnWalk guide.route.fitted.now guide.route.ends.now state }
    requires thread { t < length guide.route.fitted.now.guest.entries }
    requires track { IsWordTrack guide.route.fitted.now guide.rows.now guide.word t (positions (flat_in guide.route.fitted.now state) t) track.old }
    requires size { length words.old ≡ length guide.rows.now }
    ensures way { IsOnWalk guide.entry.route.fitted.now guide.entry.route.ends.now result }
    ensures further { IsFurther guide.entry.route.fitted.now t state result }
    ensures track { IsWordTrack guide.entry.route.fitted.now guide.entry.rows.now guide.entry.word t (positions (flat_in guide.entry.route.fitted.now result) t) track.new }
    ensures adds { AddsWords guide.entry.route.fitted.now guide.entry.rows.now guide.entry.word words.old words.new }
    ensures found { (r : ℕ) (x : Version) → slice_get guide.entry.rows.now r ≡ Some x → IsTrackPending track.old r
        → IsTrackPending track.new r ⊎ IsWorded guide.entry.route.fitted.now guide.entry.word x (slice_index_or words.new r unread) }
    ensures rests { RestsAtTarget guide.entry.route.fitted.now guide.entry.route.ends.now (flat_in guide.entry.route.fitted.now result) t }
{
    let mut state = state;
    'stretches: loop {
        let (there, moved) = stretch(guide, state, t, track, words);
        state = there;
        if !moved {
            return state;
        }
    }
}
