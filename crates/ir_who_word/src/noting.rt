//! The words of the versions that a thread makes, and the steps that put them.

ghost use Rattle.std.specs.Prelude.{◌≡◌, ◌≢◌, ◌⊎◌, ◌+◌, ◌-◌, ◌<◌, ◌≤◌, ℕ, true, false, length, slice_get, Some, IfSome, IfNone, option_to_list};
ghost use Rattle.std.specs.List.{slice_index_or};
ghost use Rattle.ir_fit.specs.Fit.{FittedTrace};
ghost use Rattle.ir_weave.specs.Standing.{flat_in, positions};
ghost use Rattle.ir_events.specs.Walk.{IsOnWalk};
ghost use Rattle.ir_past.specs.declared.place.Place.{Place};
ghost use Rattle.ir_who.specs.declared.version.Version.{Version};
ghost use Rattle.ir_event_walk.specs.Calls.{AreCalls};
ghost use Rattle.ir_event_walk.specs.declared.exchange.Exchange.{Exchange};
ghost use Rattle.ir_who_word.specs.declared.hold.Hold.{Hold};
ghost use Rattle.ir_who_word.specs.declared.object_word.ObjectWord as word;
ghost use Rattle.ir_who_word.specs.Words.{puts_word, IsPutIn, IsWorded, unread};
ghost use Rattle.ir_who_word.specs.Track.{IsTrackGuide, IsHoldOf, IsWordTrack, IsTrackPending, NoTrackDue, AddsWords, NotesWord};

use crate::guide::Guide;
use crate::hold::Hold;
use crate::object_word::ObjectWord;
use crate::track::Track;
use crate::worded::Worded;
use ir_event_walk::{Exchange, thread_of, word_at};
use ir_replay::State;
use ir_thread::Ask;

// Whether a call puts the word.
fn puts(word: ObjectWord, asked: Ask) -> bool
    ensures { result ≡ puts_word word asked }
{
    match asked {
        Ask::Put(object, index, _) => object == word.object && index == word.index,
        _ => false,
    }
}

// The last step that put the word, if it is past an entry.
fn put_past(put: Option<u64>, entry: u64) -> Option<u64>
    ensures { (f : FittedTrace) (w : word.ObjectWord) (t from to : ℕ) → from ≤ entry + 1 → IsPutIn f w t from to put → IsPutIn f w t (entry + 1) to result }
{
    match put {
        Some(step) if step > entry => Some(step),
        _ => None,
    }
}

// Notes the word of the version that a hold makes, where the next step of its thread leaves the object.
fn note(guide: Guide<'_, '_>, state: &State, hold: Hold, put: Option<u64>, words: &mut [Worded])
    requires guide { IsTrackGuide guide.route.fitted.now guide.rows.now guide.word guide.route.ends.now guide.route.code.now }
    requires size { length words.old ≡ length guide.rows.now }
    requires row { hold.row < length guide.rows.now }
    ensures words { (t from : ℕ) → IsOnWalk guide.entry.route.fitted.now guide.entry.route.ends.now state.now
        → IsHoldOf guide.entry.route.fitted.now guide.entry.rows.now guide.entry.word t hold → hold.leave ≡ positions (flat_in guide.entry.route.fitted.now state.now) t
        → from ≤ hold.entry + 1 → IsPutIn guide.entry.route.fitted.now guide.entry.word t from hold.leave put
        → NotesWord guide.entry.route.fitted.now guide.entry.rows.now guide.entry.word hold words.old words.new }
{
    let step = put_past(put, hold.entry);
    words[hold.row] = Worded {
        made_by: guide.rows[hold.row].made_by,
        word: word_at(state, guide.word.object, guide.word.index),
        step,
    };
}

// The next hold, if its leave is the step from position k.
fn due(track: &Track, k: u64) -> Option<Hold>
    ensures next { IfSome result (λ h. (track.now.next < length track.now.holds.items) × (h.leave ≡ k) × ((d : Hold) → slice_index_or track.now.holds.items track.now.next d ≡ h)) }
    ensures later { IfNone result (track.now.next < length track.now.holds.items → (d : Hold) → (slice_index_or track.now.holds.items track.now.next d).leave ≢ k) }
{
    match track.holds.get(track.next) {
        Some(hold) if hold.leave == k => Some(*hold),
        _ => None,
    }
}

// Notes the word of the version that thread t makes, if its next step leaves the object.
pub fn note_due(
    guide: Guide<'_, '_>,
    state: &State,
    t: usize,
    track: &mut Track,
    words: &mut [Worded],
)
    requires guide { IsTrackGuide guide.route.fitted.now guide.rows.now guide.word guide.route.ends.now guide.route.code.now }
    requires way { IsOnWalk guide.route.fitted.now guide.route.ends.now state.now }
    requires thread { t < length guide.route.fitted.now.guest.entries }
    requires track { IsWordTrack guide.route.fitted.now guide.rows.now guide.word t (positions (flat_in guide.route.fitted.now state.now) t) track.old }
    requires size { length words.old ≡ length guide.rows.now }
    ensures track { IsWordTrack guide.entry.route.fitted.now guide.entry.rows.now guide.entry.word t (positions (flat_in guide.entry.route.fitted.now state.now) t) track.new }
    ensures due { NoTrackDue (positions (flat_in guide.entry.route.fitted.now state.now) t) track.new }
    ensures adds { AddsWords guide.entry.route.fitted.now guide.entry.rows.now guide.entry.word words.old words.new }
    ensures found { (r : ℕ) (x : Version) → slice_get guide.entry.rows.now r ≡ Some x → IsTrackPending track.old r
        → IsTrackPending track.new r ⊎ IsWorded guide.entry.route.fitted.now guide.entry.word x (slice_index_or words.new r unread) }
{
    let k = thread_of(state, t).steps();
    'due: while let Some(hold) = due(track, k) {
        note(guide, state, hold, track.put, words);
        track.next += 1;
    }
}

// Notes that the step from position k put the word, if this call of its did.
pub fn note_put(word: ObjectWord, track: &mut Track, k: u64, call: Option<Exchange>)
    ensures same { (track.new.holds ≡ track.old.holds) × (track.new.next ≡ track.old.next) × (track.new.from ≡ track.old.from) }
    ensures put { (c : Exchange) → call ≡ Some c → puts_word word c.asked ≡ true → track.new.put ≡ Some k }
    ensures none { ((c : Exchange) → call ≡ Some c → puts_word word c.asked ≡ false) → track.new.put ≡ track.old.put }
{
    match call {
        Some(call) if puts(word, call.asked) => track.put = Some(k),
        _ => {}
    }
}
