//! What a fold of repeats reads.

ghost use Rattle.std.specs.Prelude.{◌≡◌, [], ◌∷◌, ◌++◌, IfOk};
ghost use Rattle.std.specs.String.{string_bytes};
ghost use Rattle.ir_picture.specs.Numbers.{version_read, read_pair, read_pairs, with_commas};

use ir_log::Event;
use std::alloc::{AllocError, Global};

// The version at which an event reads an object, if it does.
#[tactic(auto, unfolding(crate::specs::Numbers::version_read))]
fn read_by(event: Event, object: u8) -> Option<u32>
    ensures { result ≡ version_read object (event ∷ []) }
{
    match event {
        Event::Answer(..) => None,
        Event::Read {
            object: read,
            version,
        } => { if read == object { Some(version) } else { None } }
        Event::Write { .. } => None,
        Event::Try { .. } => None,
    }
}

// The version at which events read an object, by the first that does.
fn version_read(events: &[Event], object: u8) -> Option<u32>
    ensures { result ≡ version_read object events.now }
{
    for event in events {
        if let Some(version) = read_by(*event, object) {
            return Some(version);
        }
    }
    None
}

// An object and the version at which it was read, after this.
fn read_pair(alloc: Global, comma: &str, object: u8, version: u32) -> Result<String, AllocError>
    ensures { IfOk result (λ s. string_bytes s ≡ comma.now ++ read_pair object version) }
{
    format!(in alloc; "{comma}[{object},{version}]")
}

/// What events read of this many objects: each object that they read, and its version. Time is linear in the events, times the objects.
///
/// # Errors
/// Out of memory.
pub fn pairs_read(alloc: Global, events: &[Event], objects: u8) -> Result<String, AllocError>
    ensures { IfOk result (λ s. string_bytes s ≡ with_commas (read_pairs objects events.now)) }
{
    let mut text = String::new(alloc);
    let mut comma = "";
    for object in 0..objects {
        if let Some(version) = version_read(events, object) {
            text.push_str(read_pair(alloc, comma, object, version)?.as_str())?;
            comma = ",";
        }
    }
    Ok(text)
}
