//! What the words of an answer name.

ghost use Rattle.std.specs.Prelude.{◌≡◌, ◌<◌};
ghost use Rattle.ir_names.specs.Naming.{ends_word, next_object, next_place, place_behind, thing_at, numbered_word};

use crate::numbers::{address, decimal};
use crate::place::Place;
use crate::thing::Thing;

/// The word before the number of a thread, in answers and in files of names.
pub const THREAD: &[u8] = b"thread";

/// The word before the number of an object.
pub const OBJECT: &[u8] = b"object";

/// The word before the index of a word of an object.
pub const WORD: &[u8] = b"word";

// The other words of answers that say what is behind them.
const READ: &[u8] = b"read";

const WRITE: &[u8] = b"write";

const TRY: &[u8] = b"try";

const WORDS: &[u8] = b"words";

const PC: &[u8] = b"pc";

// The most words of an object whose values are named in a line.
const MOST_SHOWN_WORDS: u8 = 64;

/// Whether a word ends at a byte.
pub fn is_end(byte: u8) -> bool
    ensures { result ≡ ends_word byte }
{
    byte == b' ' || byte == b'\n' || byte == b','
}

// The word of the object that was mentioned last.
fn word_of(object: Option<u64>, index: u64) -> Option<Thing>
    ensures { result ≡ numbered_word object index }
{
    match object {
        Some(number) => Some(Thing::Word(number, index)),
        None => None,
    }
}

/// What the word at a place names, if it is a number of something.
pub fn thing_at(place: Place, object: Option<u64>, word: &[u8]) -> Option<Thing>
    ensures { result ≡ thing_at place object word.now }
{
    match place {
        Place::Begin | Place::Pc => Some(Thing::Address(address(word)?)),
        Place::Thread => Some(Thing::Thread(decimal(word)?)),
        Place::Object | Place::Entry => Some(Thing::Object(decimal(word)?)),
        Place::Word => word_of(object, decimal(word)?),
        Place::Words(index) => {
            address(word)?;
            word_of(object, index as u64)
        }
        Place::Held | Place::Other => None,
    }
}

// What a word says of the word behind it.
fn place_behind(word: &[u8]) -> Place
    ensures { result ≡ place_behind word.now }
{
    if word == THREAD {
        Place::Thread
    } else if word == OBJECT {
        Place::Object
    } else if word == READ || word == WRITE || word == TRY {
        Place::Entry
    } else if word == WORD {
        Place::Word
    } else if word == PC {
        Place::Pc
    } else {
        Place::Other
    }
}

/// Where the next word is, by the place of a word and its bytes.
pub fn next_place(place: Place, word: &[u8]) -> Place
    ensures { result ≡ next_place place word.now }
{
    match place {
        Place::Object if decimal(word).is_some() => Place::Held,
        Place::Held if word == WORDS => Place::Words(0),
        Place::Words(index) if address(word).is_some() && index < MOST_SHOWN_WORDS - 1 => {
            Place::Words(index + 1)
        }
        _ => place_behind(word),
    }
}

/// The object that was mentioned last, after the word at a place.
pub fn next_object(place: Place, before: Option<u64>, word: &[u8]) -> Option<u64>
    ensures { result ≡ next_object place before word.now }
{
    match place {
        Place::Object | Place::Entry => match decimal(word) {
            Some(number) => Some(number),
            None => before,
        },
        _ => before,
    }
}
