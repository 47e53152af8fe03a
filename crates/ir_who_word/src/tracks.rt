//! The holds of each thread, before the first step.

ghost use Rattle.std.specs.Prelude.{◌≡◌, ◌+◌, ◌<◌, ◌≤◌, ◌++◌, ◌∷◌, [], None, ℕ, length, slice_index_or, IfOk, OnOk};
ghost use Rattle.std.specs.List.Sorted.{IsNonDecreasingBy};
ghost use Rattle.ir_who_word.specs.declared.hold.Hold.{Hold};
ghost use Rattle.ir_who_word.specs.declared.track.Track.{Track};
ghost use Rattle.ir_who_word.specs.Track.{IsTrackGuide, IsAdded, AreTracksBuilt, IsTrackSorted, AreTracksSorted};

use crate::guide::Guide;
use crate::hold::Hold;
use crate::holds::hold_of;
use crate::track::Track;
use std::alloc::{AllocError, Global};

// No hold.
fn empty_track(alloc: Global) -> Track
    ensures next { result.next ≡ 0 }
    ensures holds { result.holds.items ≡ [] }
    ensures put { result.put ≡ None }
{
    Track {
        holds: Vec::new(alloc),
        next: 0,
        from: u64::MAX,
        put: None,
    }
}

// One more hold.
fn add_hold(track: &mut Track, hold: Hold) -> Result<(), AllocError>
    requires { hold.entry < hold.leave }
    ensures { OnOk result (IsAdded track.old hold track.new) }
{
    track.from = track.from.min(hold.entry + 1);
    track.holds.push(hold)?;
    Ok(())
}

// Brings its holds into the order of their leaves.
fn sort(track: &mut Track) -> Result<(), AllocError>
    ensures { OnOk result (IsTrackSorted track.old track.new) }
{
    track.holds.sort_by_key(|hold| hold.leave)?;
    Ok(())
}

// Adds the hold that made a version to those of its thread.
fn add_row(guide: Guide<'_, '_>, tracks: &mut [Track], row: usize) -> Result<(), AllocError>
    requires guide { IsTrackGuide guide.route.fitted.now guide.rows.now guide.word guide.route.ends.now guide.route.code.now }
    requires size { length tracks.old ≡ length guide.route.fitted.now.guest.entries }
    requires row { row < length guide.rows.now }
    requires built { AreTracksBuilt guide.route.fitted.now guide.rows.now guide.word row tracks.old }
    ensures size { length tracks.new ≡ length tracks.old }
    ensures built { OnOk result (AreTracksBuilt guide.entry.route.fitted.now guide.entry.rows.now guide.entry.word (row + 1) tracks.new) }
{
    let Some(place) = guide.rows[row].made_by else {
        return Ok(());
    };
    match hold_of(guide.route.fitted, row, place) {
        Some(hold) => add_hold(&mut tracks[place.thread as usize], hold),
        None => Ok(()),
    }
}

// Each thread without holds.
fn empty_tracks(guide: Guide<'_, '_>) -> Result<Vec<Track>, AllocError>
    ensures size { IfOk result (λ v. length v.items ≡ length guide.entry.route.fitted.now.guest.entries) }
    ensures built { IfOk result (λ v. AreTracksBuilt guide.entry.route.fitted.now guide.entry.rows.now guide.entry.word 0 v.items) }
{
    let threads = guide.route.fitted.image().entries().len();
    let mut tracks = Vec::with_capacity(guide.route.alloc, threads)?;
    for _ in 0..threads {
        tracks.push(empty_track(guide.route.alloc))?;
    }
    Ok(tracks)
}

// Sorts the holds of each thread.
fn sort_all(tracks: &mut [Track]) -> Result<(), AllocError>
    ensures size { length tracks.new ≡ length tracks.old }
    ensures sorted { OnOk result (AreTracksSorted tracks.old tracks.new) }
{
    for t in 0..tracks.len() {
        sort(&mut tracks[t])?;
    }
    Ok(())
}

/// The holds of each thread, in the order of their leaves.
pub fn tracks(guide: Guide<'_, '_>) -> Result<Vec<Track>, AllocError>
    requires guide { IsTrackGuide guide.route.fitted.now guide.rows.now guide.word guide.route.ends.now guide.route.code.now }
    ensures size { IfOk result (λ v. length v.items ≡ length guide.entry.route.fitted.now.guest.entries) }
    ensures built { IfOk result (λ v. AreTracksBuilt guide.entry.route.fitted.now guide.entry.rows.now guide.entry.word (length guide.entry.rows.now) v.items) }
    ensures sorted { IfOk result (λ v. (t : ℕ) (d : Track) → t < length v.items → IsNonDecreasingBy (λ (h : Hold). h.leave) (slice_index_or v.items t d).holds.items) }
{
    let mut tracks = empty_tracks(guide)?;
    for row in 0..guide.rows.len() {
        add_row(guide, &mut tracks, row)?;
    }
    sort_all(&mut tracks)?;
    Ok(tracks)
}
