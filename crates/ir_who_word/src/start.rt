//! The versions before the first step.

ghost use Rattle.std.specs.Prelude.{◌≡◌, ℕ, length, slice_get, Some, None, IfOk};
ghost use Rattle.std.specs.List.{slice_index_or};
ghost use Rattle.ir_weave.specs.Standing.{StandsAtCut};
ghost use Rattle.ir_who.specs.declared.version.Version.{Version};
ghost use Rattle.ir_who_word.specs.Words.{IsWorded, unread};
ghost use Rattle.ir_who_word.specs.Track.{IsTrackGuide};

use crate::guide::Guide;
use crate::worded::Worded;
use ir_event_walk::word_at;
use ir_replay::State;
use std::alloc::AllocError;

// The versions, each with the first word, which only the first has for sure. The state is that before the first step.
pub fn first_words(guide: Guide<'_, '_>, state: &State) -> Result<Vec<Worded>, AllocError>
    requires guide { IsTrackGuide guide.route.fitted.now guide.rows.now guide.word guide.route.ends.now guide.route.code.now }
    requires start { StandsAtCut guide.route.fitted.now (λ t. 0) state.now }
    ensures size { IfOk result (λ v. length v.items ≡ length guide.entry.rows.now) }
    ensures first { IfOk result
        (λ v. (r : ℕ) (x : Version) → slice_get guide.entry.rows.now r ≡ Some x → x.made_by ≡ None
        → IsWorded guide.entry.route.fitted.now guide.entry.word x (slice_index_or v.items r unread)) }
{
    let word = word_at(state, guide.word.object, guide.word.index);
    let mut words = Vec::new(guide.route.alloc);
    for row in guide.rows {
        words.push(Worded {
            made_by: row.made_by,
            word,
            step: None,
        })?;
    }
    Ok(words)
}
