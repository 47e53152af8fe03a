//! The walk over a run that finds a word of each version of an object.

ghost use Rattle.std.specs.Prelude.{◌≡◌, ◌<◌, ◌≤◌, ℕ, length, IfOk};
ghost use Rattle.ir_image.specs.Guest.{object_count};
ghost use Rattle.ir_trace.specs.Recorded.{recorded_thread};
ghost use Rattle.ir_weave.specs.Standing.{flat_in, positions};
ghost use Rattle.ir_events.specs.Walk.{IsOnWalk, IsWalkPass};
ghost use Rattle.ir_opened.specs.Paired.{ArePaired};
ghost use Rattle.ir_who.specs.Versions.{AreVersions};
ghost use Rattle.ir_who_word.specs.Words.{IsWorded};
ghost use Rattle.ir_who_word.specs.Track.{IsTrackGuide, AreTracked};

use crate::guide::Guide;
use crate::object_word::ObjectWord;
use crate::start::first_words;
use crate::track::Track;
use crate::tracks::tracks;
use crate::visit::visit_thread;
use crate::worded::Worded;
use ir_event_walk::{Route, unmarked};
use ir_events::{are_done, ends_of};
use ir_fit::Fitted;
use ir_replay::State;
use ir_who::Version;
use std::alloc::{AllocError, Global};

// Takes each thread in turn as far as it can go by itself.
fn pass(guide: Guide<'_, '_>, state: State, tracks: &mut [Track], words: &mut [Worded]) -> State
    requires guide { IsTrackGuide guide.route.fitted.now guide.rows.now guide.word guide.route.ends.now guide.route.code.now }
    requires way { IsOnWalk guide.route.fitted.now guide.route.ends.now state }
    requires tracks { length tracks.old ≡ length guide.route.fitted.now.guest.entries }
    requires size { length words.old ≡ length guide.rows.now }
    requires tracked { AreTracked guide.route.fitted.now guide.rows.now guide.word state tracks.old words.old }
    ensures passed { IsWalkPass guide.entry.route.fitted.now guide.entry.route.ends.now (length tracks.old) state result }
    ensures tracks { length tracks.new ≡ length tracks.old }
    ensures size { length words.new ≡ length words.old }
    ensures tracked { AreTracked guide.entry.route.fitted.now guide.entry.rows.now guide.entry.word result tracks.new words.new }
{
    let mut state = state;
    for t in 0..tracks.len() {
        state = visit_thread(guide, state, t, &mut tracks[t], words);
    }
    state
}

// Takes all threads to their ends.
fn walk(guide: Guide<'_, '_>, state: State, tracks: &mut [Track], words: &mut [Worded])
    requires guide { IsTrackGuide guide.route.fitted.now guide.rows.now guide.word guide.route.ends.now guide.route.code.now }
    requires way { IsOnWalk guide.route.fitted.now guide.route.ends.now state }
    requires tracks { length tracks.old ≡ length guide.route.fitted.now.guest.entries }
    requires size { length words.old ≡ length guide.rows.now }
    requires tracked { AreTracked guide.route.fitted.now guide.rows.now guide.word state tracks.old words.old }
    ensures { ArePaired (IsWorded guide.entry.route.fitted.now guide.entry.word) guide.entry.rows.now words.new }
{
    let mut state = state;
    'passes: while !are_done(state.threads(), guide.route.ends) {
        state = pass(guide, state, tracks, words);
    }
}

/// A word of each version of an object of a fitted trace, which `ir_who::versions_of` lists, and the step that put it. Walks over the run once,
/// in as many passes over the threads as they wait for one another. Time is linear in the steps that the threads take, but for a sort of the
/// versions; memory grows with the versions.
///
/// # Errors
/// Out of memory.
pub fn words(
    alloc: Global,
    fitted: &Fitted,
    rows: &[Version],
    word: ObjectWord,
) -> Result<Vec<Worded>, AllocError>
    requires versions { AreVersions fitted.now.recorded word.object rows.now }
    requires object { word.object < object_count fitted.now.guest }
    ensures { IfOk result (λ v. ArePaired (IsWorded fitted.now word) rows.now v.items) }
{
    let ends = ends_of(alloc, fitted)?;
    let code = unmarked(alloc, fitted.image().code())?;
    let route = Route {
        alloc,
        fitted,
        ends: &ends,
        code: &code,
    };
    let guide = Guide { route, rows, word };
    let mut tracks = tracks(guide)?;
    let state = State::start(alloc, fitted)?;
    let mut words = first_words(guide, &state)?;
    walk(guide, state, &mut tracks, &mut words);
    Ok(words)
}
